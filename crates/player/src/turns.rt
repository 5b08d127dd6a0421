//! The turns of a row, and what is replied to each.

ghost use Rattle.std.specs.Prelude.{◌≡◌};
ghost use Rattle.player.specs.declared.turns.TurnFault.TheVariants.{NotAccepted, Refused};

use calculus::{TermCell, TypeCell};
use controller::{Refusal, Stop};
use verdict::CheckFault;

/// A call of the controller as data. The call has the first cells of a table, as many as its turn
/// gives it.
#[derive(Clone, Copy, Drop)]
pub enum Turn<'a> {
    /// Checks a program, and loads it if it is accepted.
    Load(&'a [TypeCell], &'a [TermCell]),
    /// One step, with so many cells of the work table.
    Step(usize),
    /// A run with this budget, with so many cells of the work table.
    Run(u64, usize),
    /// Collects into so many cells of the table for values, and so many of the table for types.
    Collect(usize, usize),
    Abandon,
}

/// What a turn has done.
#[derive(Clone, Copy, PartialEq, Eq, Debug, Drop)]
pub enum Done {
    /// Loaded: the cell count of the term.
    Loaded(usize),
    /// One step: the cell count of the next term.
    Stepped(usize),
    /// A run: the steps made, and why they stopped.
    Ran(u64, Stop),
    /// Collected: the cell counts of the value and of its type.
    Collected(usize, usize),
    Abandoned,
}

/// Why a turn has done nothing.
#[derive(Clone, Copy, PartialEq, Eq, Debug, Drop)]
pub enum TurnFault {
    /// The program is not accepted, and nothing was called.
    NotAccepted(CheckFault),
    /// The call was refused.
    Refused(Refusal),
}

impl From<CheckFault> for TurnFault {
    ghost from_gives = { λ f t. t ≡ NotAccepted f };

    fn from(fault: CheckFault) -> TurnFault {
        TurnFault::NotAccepted(fault)
    }
}

impl From<Refusal> for TurnFault {
    ghost from_gives = { λ r t. t ≡ Refused r };

    fn from(refusal: Refusal) -> TurnFault {
        TurnFault::Refused(refusal)
    }
}

/// The reply to a turn.
pub type Reply = Result<Done, TurnFault>;
