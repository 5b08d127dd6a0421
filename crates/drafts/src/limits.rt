//! Programs that meet a limit, and that pass it by little, by how large they are made.

ghost use Rattle.std.specs.Prelude.{◌≡◌, ◌*◌, [], ◌∷◌, ◌++◌, map, replicate, vec_len, string_bytes};
ghost use Rattle.std.specs.Prelude.{IfOk, OnOk};
ghost use Rattle.std.specs.Str.{chars};
ghost use Rattle.calculus.specs.Types.{bangs, bit as bit_type};
ghost use Rattle.calculus.specs.Cells.{kind_cell, cell_of, placed_cells};
ghost use Rattle.calculus.specs.Cells.{type_cells as cells_of_type};
ghost use Rattle.drafts.specs.Counts.{padded_count};
ghost use Rattle.drafts.specs.Limits.{table, common_types, wraps};
ghost use Rattle.drafts.specs.Limits.{right_bit, padded_bit, zero_bit, one_bit};
ghost use Rattle.drafts.specs.Limits.{nested_types, innermost_term, binders_term};
ghost use Rattle.drafts.specs.Text.{long_text};

use crate::draft::Draft;
use std::alloc::{AllocError, Global};

// The types that these programs share: b at 0, b>b at 1, b*b at 4, !(b>b) at 7, and !(b>b)>b at 11.
const COMMON: &str = "b>bb*bb!>bb>!>bbb";

pub(crate) fn common(heap: Global) -> Result<Draft, AllocError>
    ensures types { IfOk result (λ draft. draft.types.items ≡ table common_types) }
    ensures terms { IfOk result (λ draft. draft.terms.items ≡ []) }
{
    let mut draft = Draft::new(heap);
    draft.kinds(COMMON)?;
    Ok(draft)
}

// The identity on bits, so many times around the bit that follows: three cells and one step each.
pub(crate) fn wrap(draft: &mut Draft, times: usize) -> Result<(), AllocError>
    ensures terms { OnOk result (draft.new.terms.items ≡ draft.old.terms.items ++ wraps times) }
    ensures types { draft.new.types ≡ draft.old.types }
{
    for _ in 0..times {
        draft.cells(&[('a', 0, 0), ('l', 0, 1), ('v', 0, 0)])?;
    }
    Ok(())
}

// A bit of five cells.
fn five(draft: &mut Draft) -> Result<(), AllocError>
    ensures terms { OnOk result (draft.new.terms.items
        ≡ draft.old.terms.items ++ placed_cells right_bit) }
    ensures types { draft.new.types ≡ draft.old.types }
{
    draft.cells(&[
        ('d', 0, 0),
        ('p', 0, 4),
        ('0', 0, 0),
        ('1', 0, 0),
        ('v', 0, 0),
    ])
}

// A bit of so many cells, or of the next count with the same remainder by 3 that such a bit has.
pub(crate) fn padded(draft: &mut Draft, cells: usize) -> Result<(), AllocError>
    ensures terms { OnOk result (draft.new.terms.items
        ≡ draft.old.terms.items ++ placed_cells (padded_bit cells)) }
    ensures types { draft.new.types ≡ draft.old.types }
{
    match cells % 3 {
        1 => {
            wrap(draft, cells / 3)?;
            draft.cell('0', 0, 0)
        }
        2 => {
            wrap(draft, (cells / 3).saturating_sub(1))?;
            five(draft)
        }
        _ => {
            wrap(draft, (cells / 3).saturating_sub(4))?;
            draft.cell('i', 0, 0)?;
            five(draft)?;
            draft.cell('1', 0, 0)?;
            five(draft)
        }
    }
}

// A bit, with a type table of these letters.
fn bit(heap: Global, op: char, kinds: &str) -> Result<Draft, AllocError>
    ensures types { IfOk result (λ draft. draft.types.items ≡ map kind_cell (chars kinds.now)) }
    ensures terms { IfOk result (λ draft. draft.terms.items ≡ cell_of op 0 0 ∷ []) }
{
    let mut draft = Draft::new(heap);
    draft.kinds(kinds)?;
    draft.cell(op, 0, 0)?;
    Ok(draft)
}

/// A bit, with a type table of so many cells.
pub fn type_cells(heap: Global, cells: usize) -> Result<Draft, AllocError>
    ensures types { IfOk result (λ draft. draft.types.items ≡ replicate cells (kind_cell 98)) }
    ensures terms { IfOk result (λ draft. draft.terms.items ≡ placed_cells zero_bit) }
{
    bit(heap, '0', &"b".repeat(heap, cells)?)
}

/// A bit of so many term cells: of 1, 4, 5, 7, 8 or more than 9.
pub fn term_cells(heap: Global, cells: usize) -> Result<Draft, AllocError>
    ensures count { IfOk result (λ draft. vec_len draft.terms ≡ padded_count cells) }
    ensures types { IfOk result (λ draft. draft.types.items ≡ table common_types) }
    ensures terms { IfOk result (λ draft. draft.terms.items ≡ placed_cells (padded_bit cells)) }
{
    let mut draft = common(heap)?;
    padded(&mut draft, cells)?;
    Ok(draft)
}

/// So many leading marks on the claim of a bit.
pub fn marks(heap: Global, marks: usize) -> Result<Draft, AllocError>
    ensures types { IfOk result (λ draft. draft.types.items
        ≡ cells_of_type (bangs marks bit_type)) }
    ensures terms { IfOk result (λ draft. draft.terms.items ≡ placed_cells one_bit) }
{
    let mut kinds = "!".repeat(heap, marks)?;
    kinds.push('b')?;
    bit(heap, '1', &kinds)
}

// What so many functions are around: a variable, or a split of a pair of bits.
fn innermost(draft: &mut Draft, functions: u8, variable: Option<u16>) -> Result<(), AllocError>
    ensures terms { OnOk result (draft.new.terms.items
        ≡ draft.old.terms.items ++ placed_cells (innermost_term (2 * functions) variable)) }
    ensures types { draft.new.types ≡ draft.old.types }
{
    let bit = 2 * functions as u16;
    match variable {
        Some(index) => draft.cell('v', index, bit),
        None => draft.cells(&[
            ('d', 0, bit),
            ('p', 0, bit + 1),
            ('0', 0, bit),
            ('0', 0, bit),
            ('v', 0, bit),
        ]),
    }
}

/// So many functions, one in the other, around a variable that counts outward, or around a split.
pub fn binders(heap: Global, functions: u8, variable: Option<u16>) -> Result<Draft, AllocError>
    ensures types { IfOk result (λ draft. draft.types.items ≡ table (nested_types functions)) }
    ensures terms { IfOk result (λ draft. draft.terms.items
        ≡ placed_cells (binders_term functions variable)) }
{
    let mut draft = Draft::new(heap);
    for i in 0..functions {
        draft.kinds(">b")?;
        draft.cell('l', 0, 2 * i as u16)?;
    }
    draft.kinds("b*bb")?;
    innermost(&mut draft, functions, variable)?;
    Ok(draft)
}

/// A text of so many bytes, whose second line is too long for a line and ends the text.
pub fn long_line(heap: Global, bytes: usize) -> Result<String, AllocError>
    ensures { IfOk result (λ text. string_bytes text ≡ long_text bytes) }
{
    let kinds = "b".repeat(heap, bytes.saturating_sub(8))?;
    format!(in heap; "QL\t1\nT\t{kinds}\n")
}
