//! What was read of a text, and what the product says of it.

ghost use Rattle.std.specs.Prelude.{◌≤◌};
ghost use Rattle.calculus.specs.declared.limits.TheConstants.{MOST_TYPE_CELLS};
ghost use Rattle.calculus.specs.declared.limits.TheConstants.{MOST_TERM_CELLS};

use calculus::{MOST_TERM_CELLS, MOST_TYPE_CELLS, TermCell, TypeCell};
use reader::ReadFault;
use verdict::CheckFault;

/// What is said of a text.
#[derive(Clone, Copy, Drop)]
pub enum Verdict {
    /// The reader refuses it, at a line.
    Unread(ReadFault),
    /// The checker refuses its program, at a cell.
    Refused(CheckFault),
    /// Its program is accepted.
    Accepted,
}

/// The verdict on a text, and the cells that were read of it, counted from the front of the tables.
#[derive(Drop)]
pub struct Judged {
    pub verdict: Verdict,
    pub types: [TypeCell; MOST_TYPE_CELLS],
    pub kinds: usize,
    pub terms: [TermCell; MOST_TERM_CELLS],
    pub ops: usize,
    ghost few_kinds: { kinds ≤ MOST_TYPE_CELLS },
    ghost few_ops: { ops ≤ MOST_TERM_CELLS },
}
