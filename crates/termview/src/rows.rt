//! The table: a row for each cell of a term.

ghost use Rattle.std.specs.Prelude.{◌≡◌, ◌<◌, ◌≤◌, ◌++◌, get_or, length, OnOk, string_bytes};
ghost use Rattle.termview.specs.Rows.{claim_text, is_marked, letter_text, mark_text, place_text};
ghost use Rattle.termview.specs.Rows.{row_text, rows_text, term_shown};
ghost use Rattle.termview.specs.Bytes.{cut, left};

use crate::bytes::{push_blanks, push_cut, push_left, push_number, push_right};
use crate::cells::Cells;
use crate::depths::depths;
use calculus::{MOST_TERM_CELLS, TermCell, TypeCell};
use notation::{Around, push_term, push_type};
use std::alloc::{AllocError, Global};

// Columns of the table.
const CELL_WIDTH: usize = 5;

const LINE_WIDTH: usize = 6;

const LETTER_WIDTH: usize = 8;

const TERM_WIDTH: usize = 46;

// Appends the letter of a cell, with its argument where the letter has one.
fn push_letter(out: &mut String, cell: TermCell) -> Result<(), AllocError>
    ensures { OnOk result (string_bytes out.new ≡ string_bytes out.old ++ letter_text cell) }
{
    out.push(cell.op)?;
    if cell.argument > 0 || matches!(cell.op, 'v' | 'g' | 'q') {
        out.push_str(" ")?;
        push_number(out, cell.argument as usize)?;
    }
    Ok(())
}

/// Appends the type that begins at a place.
pub fn push_claim(out: &mut String, types: &[TypeCell], claim: usize) -> Result<(), AllocError>
    ensures { OnOk result (string_bytes out.new
        ≡ string_bytes out.old ++ claim_text types.now claim) }
{
    let from = claim.min(types.len());
    push_type(out, &types[from..], Around::Open)?;
    Ok(())
}

// Appends the mark of a row that is at fault, or as many blanks.
fn push_mark(out: &mut String, is_marked: bool) -> Result<(), AllocError>
    ensures { OnOk result (string_bytes out.new ≡ string_bytes out.old ++ mark_text is_marked) }
{
    out.push_str(if is_marked { ">>>" } else { "   " })
}

// Appends the first columns of a row: its mark, and the number and the line of its cell.
fn push_place(out: &mut String, cell: usize, line: usize, is_marked: bool) -> Result<(), AllocError>
    ensures { OnOk result (string_bytes out.new
        ≡ string_bytes out.old ++ place_text cell line is_marked) }
{
    push_mark(out, is_marked)?;
    push_right(out, cell, CELL_WIDTH)?;
    push_right(out, line, LINE_WIDTH)?;
    push_blanks(out, 2)
}

// Appends the column of a cell's letter.
fn push_letter_column(out: &mut String, alloc: Global, cell: TermCell) -> Result<(), AllocError>
    ensures { OnOk result (string_bytes out.new
        ≡ string_bytes out.old ++ left LETTER_WIDTH (letter_text cell)) }
{
    let mut letter = String::new(alloc);
    push_letter(&mut letter, cell)?;
    push_left(out, letter.as_bytes(), LETTER_WIDTH)
}

// Appends the column of the term that the cells begin with.
fn push_term_column(
    out: &mut String,
    alloc: Global,
    cells: &[TermCell],
    binders: u16,
) -> Result<(), AllocError>
    requires { length cells.now ≤ MOST_TERM_CELLS }
    ensures { OnOk result (string_bytes out.new
        ≡ string_bytes out.old ++ cut TERM_WIDTH (term_shown cells.now binders)) }
{
    let mut term = String::new(alloc);
    push_term(&mut term, cells, binders, Around::Open)?;
    push_cut(out, term.as_bytes(), TERM_WIDTH)
}

// Appends the row of a cell: its number, line and letter, the term that begins there, and the type
// that it claims.
fn push_row(
    out: &mut String,
    alloc: Global,
    cells: Cells<'_>,
    at: usize,
    binders: u16,
    is_marked: bool,
) -> Result<(), AllocError>
    requires { at < length cells.terms.now }
    ensures { OnOk result (string_bytes out.new ≡ string_bytes out.old
        ++ row_text cells.entry.types.now cells.entry.terms.now at binders is_marked) }
{
    let cell = cells.terms[at];
    push_place(out, at, cells.line(at), is_marked)?;
    push_letter_column(out, alloc, cell)?;
    push_term_column(out, alloc, &cells.terms[at..], binders)?;
    push_blanks(out, 2)?;
    push_claim(out, cells.types, cell.claim as usize)?;
    out.push_str("\n")
}

// How many binders are around a cell, by the table of them.
fn depth_of(depths: &[u16], at: usize) -> u16
    ensures { result ≡ get_or depths.now at 0 }
{
    depths.get(at).copied().unwrap_or(0)
}

// Whether this is the cell that is marked.
fn is_this(marked: Option<usize>, at: usize) -> bool
    ensures { result ≡ is_marked marked at }
{
    match marked {
        Some(cell) => cell == at,
        None => false,
    }
}

/// Appends the rows of all cells, one of them marked maybe.
pub fn push_rows(
    out: &mut String,
    alloc: Global,
    cells: Cells<'_>,
    marked: Option<usize>,
) -> Result<(), AllocError>
    ensures { OnOk result (string_bytes out.new
        ≡ string_bytes out.old ++ rows_text cells.entry.types.now cells.entry.terms.now marked) }
{
    let depths = depths(alloc, cells.terms)?;
    for at in 0..cells.terms.len() {
        let binders = depth_of(&depths, at);
        push_row(out, alloc, cells, at, binders, is_this(marked, at))?;
    }
    Ok(())
}
