//! Cells from short texts.

use calculus::{TermCell, TypeCell};
use std::alloc::{AllocError, Global};
use std::process::Abort;
use std::test::Fail;

/// What the tables of a test are filled with, to see which cells a call writes.
pub const MARK: TermCell = TermCell {
    op: 'z',
    argument: 99,
    claim: 77,
};

/// The mark of a type table.
pub const KIND_MARK: TypeCell = TypeCell { kind: 'z' };

/// A type cell for each character.
pub fn kinds(heap: Global, text: &str) -> Result<Vec<TypeCell>, AllocError> {
    text.chars().map(|kind| TypeCell { kind }).collect(heap)
}

// The cell of a word, if it has a letter.
fn cell_of(word: &str) -> Option<TermCell> {
    let mut letters = word.chars();
    let op = letters.next()?;
    let numbers = letters.as_str();
    let (argument, claim) = numbers.split_once('.').unwrap_or((numbers, ""));
    Some(TermCell {
        op,
        argument: argument.parse().unwrap_or(0),
        claim: claim.parse().unwrap_or(0),
    })
}

/// A term cell for each word: its op, its argument in digits if it is not 0, and after a dot its
/// claim if it is not 0.
pub fn terms(heap: Global, text: &str) -> Result<Vec<TermCell>, AllocError> {
    text.split(' ').filter_map(cell_of).collect(heap)
}

/// Adds a word: an op and its claim.
pub fn add_word(text: &mut String, op: &str, claim: usize) -> Result<(), AllocError> {
    write!(text, "{op}.{claim} ")
}

/// At most so many cells of a table, from its front.
pub fn front_of<T>(table: &mut [T], most: usize) -> &mut [T] {
    let len = most.min(table.len());
    &mut table[..len]
}

/// Checks that a table starts with the cells of `front` and has the mark in every other.
pub fn starts_with<T: Copy + PartialEq + Drop>(
    rt: &impl Abort,
    table: &[T],
    front: &[T],
    mark: T,
    case: &str,
) -> Result<(), Fail> {
    assert!(rt; table.starts_with(front), "{case}: the cells in front");
    let is_left = table.iter().skip(front.len()).all(|cell| *cell == mark);
    assert!(rt; is_left, "{case}: the cells after {}", front.len());
    Ok(())
}
