//! The faults of whole tables: their lengths, their cells, that they are whole trees, and the
//! places of claims.

ghost use Rattle.std.specs.Prelude.{◌≡◌, ◌<◌, length, Err, true, false};
ghost use Rattle.second.specs.Reasons.{fault};
ghost use Rattle.second.specs.declared.halt.Reason.TheVariants.{TooManyCells};
ghost use Rattle.second.specs.Tables.{parts, kind_parts, kind_letter, fit_cell};

use crate::halt::{Fault, Reason};
use calculus::{MOST_RUNNING_CELLS, MOST_TERM_CELLS, MOST_TYPE_CELLS, TermCell, TypeCell};

/// How many trees follow an op as its parts.
pub fn op_parts(op: char) -> usize
    ensures { result ≡ parts op }
{
    match op {
        'i' => 3,
        'a' | 'p' | 'd' => 2,
        'l' => 1,
        _ => 0,
    }
}

// How many trees follow a kind as its parts.
fn type_parts(kind: char) -> usize
    ensures { result ≡ kind_parts kind }
{
    match kind {
        '>' | '*' => 2,
        '!' => 1,
        _ => 0,
    }
}

fn is_kind(kind: char) -> bool
    ensures { result ≡ kind_letter kind }
{
    matches!(kind, 'b' | 'q' | 'u' | '!' | '>' | '*')
}

/// Whether a cell may stand in a stored term.
pub fn is_stored(cell: &TermCell) -> bool
    ensures { result ≡ fit_cell cell.now false }
{
    match cell.op {
        'v' => true,
        'g' => cell.argument < 8,
        '0' | '1' | 'm' | 'n' | 's' | 'l' | 'a' | 'p' | 'd' | 'i' => cell.argument == 0,
        _ => false,
    }
}

/// Whether a cell may stand in a running term.
pub fn is_running(cell: &TermCell) -> bool
    ensures { result ≡ fit_cell cell.now true }
{
    (cell.op == 'q' && cell.argument < 32) || is_stored(cell)
}

// Each cell passes a test, or the first that does not is at fault.
fn each<T, F: Fn(&T) -> bool>(cells: &[T], reason: Reason, is_right: F) -> Result<(), Fault>
    requires { F.IsAlwaysCallable is_right }
{
    match cells.iter().position(|cell| !is_right(cell)) {
        Some(cell) => Err(reason.at(cell)),
        None => Ok(()),
    }
}

// The types are whole trees, one after the other.
fn whole_types(types: &[TypeCell]) -> Result<(), Fault> {
    let due = types.iter().fold(
        0usize,
        |due, cell| due.saturating_sub(1).saturating_add(type_parts(cell.kind)),
    );
    Reason::NotWhole.refuse_if(due != 0, 0)
}

/// The cells are exactly one term.
pub fn one_term(terms: &[TermCell]) -> Result<(), Fault> {
    let mut due: usize = 1;
    for (i, cell) in terms.iter().enumerate() {
        Reason::NotWhole.refuse_if(due == 0, i)?;
        due = due.saturating_sub(1).saturating_add(op_parts(cell.op));
    }
    Reason::NotWhole.refuse_if(due != 0, 0)
}

// A table has so many cells at most.
fn short<T>(cells: &[T], most: usize) -> Result<(), Fault>
    ensures { most < length cells.now → result ≡ Err (fault TooManyCells most) }
{
    Reason::TooManyCells.refuse_if(cells.len() > most, most)
}

/// The first fault of a program's tables, or none.
pub fn test_tables(types: &[TypeCell], terms: &[TermCell]) -> Result<(), Fault>
    ensures { 256 < length types.now → result ≡ Err (fault TooManyCells 256) }
{
    short(types, MOST_TYPE_CELLS)?;
    short(terms, MOST_TERM_CELLS)?;
    each(types, Reason::BadCell, |cell| is_kind(cell.kind))?;
    each(terms, Reason::BadCell, |cell| is_stored(cell))?;
    whole_types(types)?;
    one_term(terms)?;
    each(
        terms,
        Reason::ClaimOutside,
        |cell| (cell.claim as usize) < types.len(),
    )
}

/// The first fault of a running term's cells, or none.
pub fn test_running(cells: &[TermCell]) -> Result<(), Fault>
    ensures { 1024 < length cells.now → result ≡ Err (fault TooManyCells 1024) }
{
    short(cells, MOST_RUNNING_CELLS)?;
    each(cells, Reason::BadCell, |cell| is_running(cell))?;
    one_term(cells)
}
