//! The cells of a program, as far as they were read.

ghost use Rattle.std.specs.Prelude.{◌≡◌, ◌+◌, ◌≤◌, length};
ghost use Rattle.calculus.specs.declared.limits.TheConstants.{MOST_TYPE_CELLS};
ghost use Rattle.calculus.specs.declared.limits.TheConstants.{MOST_TERM_CELLS};

use calculus::{TermCell, TypeCell};

/// The cells of a program.
#[derive(Clone, Copy, Drop)]
pub struct Cells<'a> {
    pub types: &'a [TypeCell],
    pub terms: &'a [TermCell],
    ghost few_types: { length types.now ≤ MOST_TYPE_CELLS },
    ghost few_terms: { length terms.now ≤ MOST_TERM_CELLS },
}

impl<'a> Cells<'a> {
    /// The line of a cell of the term.
    pub(crate) fn line(self, cell: usize) -> usize
        requires { cell ≤ MOST_TERM_CELLS }
        ensures { result ≡ cell + 2 + length self.entry.types.now }
    {
        cell + 2 + self.types.len()
    }
}
