//! The cells that lines say, and their places in the tables.

ghost use Rattle.std.specs.Prelude.{◌≡◌, ◌==◌};
ghost use Rattle.reader.specs.Cells.{letter_in, kind_cell, op_cell, two_numbers};
ghost use Rattle.reader.specs.Cells.{next_place, with_cell, count_after};

use crate::faults::ReadReason;
use crate::numbers::number;
use calculus::{TermCell, TypeCell, kind_parts, op_shape};

// The letter of a field that is one byte.
#[inline(always)]
fn letter(field: &[u8]) -> Option<char>
    ensures { result ≡ letter_in field.now }
{
    match field {
        [b] => Some(char::from(*b)),
        _ => None,
    }
}

/// The cell of a kind field.
#[inline(always)]
pub fn type_cell(kind: &[u8]) -> Result<TypeCell, ReadReason>
    ensures { result ≡ kind_cell kind.now }
{
    let kind = letter(kind)
        .filter(|kind| kind_parts(*kind).is_some())
        .ok_or(ReadReason::Line)?;
    Ok(TypeCell { kind })
}

/// The cell of an op field and two number fields.
#[inline(always)]
pub fn term_cell(op: &[u8], argument: &[u8], claim: &[u8]) -> Result<TermCell, ReadReason>
    ensures { result ≡ op_cell op.now argument.now claim.now }
{
    let op = letter(op)
        .filter(|op| op_shape(*op).is_some())
        .ok_or(ReadReason::Line)?;
    let (argument, claim) = numbers(argument, claim)?;
    Ok(TermCell {
        op,
        argument,
        claim,
    })
}

/// The numbers of two fields.
#[inline(always)]
pub fn numbers(first: &[u8], second: &[u8]) -> Result<(u16, u16), ReadReason>
    ensures { result ≡ two_numbers first.now second.now }
{
    number(first).zip(number(second)).ok_or(ReadReason::Number)
}

/// The front of a table: the cells that went into it, `MOST` at most, with the room behind them.
#[derive(Drop)]
pub struct Front<'a, T, const MOST: usize> {
    cells: &'a mut [T],
    count: usize,
}

impl<'a, T: Copy, const MOST: usize> Front<'a, T, MOST> {
    /// A table that no cell has gone into.
    #[inline(always)]
    pub fn new(cells: &'a mut [T]) -> Front<'a, T, MOST>
        ensures same_table { result.cells.ghost_name ≡ cells.entry.ghost_name }
        ensures cells { result.cells.now ≡ cells.entry.now }
        ensures empty { result.count ≡ 0 }
    {
        Front { cells, count: 0 }
    }

    /// How many cells have gone into it.
    #[inline(always)]
    pub fn count(&self) -> usize
        ensures { result ≡ self.now.count }
    {
        self.count
    }

    /// Whether just so many cells have gone into it.
    #[inline(always)]
    pub fn holds(&self, cells: u16) -> bool
        ensures { result ≡ (cells == self.now.count) }
    {
        usize::from(cells) == self.count
    }

    /// Puts a cell behind the earlier ones, below the limit.
    #[inline(always)]
    pub fn push(&mut self, cell: T) -> Result<(), ReadReason>
        ensures same_table { self.new.cells.ghost_name ≡ self.old.cells.ghost_name }
        ensures answer { count_after result self.new.count
            ≡ next_place MOST self.old.cells.now self.old.count }
        ensures cells { self.new.cells.now ≡ with_cell MOST self.old.cells.now self.old.count cell }
    {
        if self.count >= MOST || self.count >= self.cells.len() {
            return Err(ReadReason::Full);
        }
        self.cells[self.count] = cell;
        self.count += 1;
        Ok(())
    }
}
