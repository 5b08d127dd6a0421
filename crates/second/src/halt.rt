//! Why a reading, a check or a step ends early.

ghost use Rattle.std.specs.Prelude.{◌≡◌, if◌then◌else◌, Ok, Err, alloc_error};
ghost use Rattle.second.specs.Reasons.{number_of, fault, outcome_of};
ghost use Rattle.second.specs.declared.halt.Halt.TheVariants.{Memory, Fault as FaultHalt};

use std::alloc::{AllocError, AllocFailed};

/// What a text, cells or a step are refused for, each with its number.
#[derive(Clone, Copy, Drop)]
pub enum Reason {
    Header = 11,
    Line = 12,
    Number = 13,
    FullTable = 14,
    End = 15,
    TooManyCells = 20,
    BadCell = 21,
    NotWhole = 22,
    ClaimOutside = 23,
    TooDeep = 24,
    NoBinder = 25,
    WrongClaim = 26,
    UsedTwice = 27,
    Captures = 28,
    NoRule = 36,
    TooLong = 37,
    NoPulses = 41,
    Full = 42,
    NotLive = 45,
    GivenTwice = 46,
}

impl Reason {
    /// The fault for this reason at a line, a cell or a count of steps.
    pub fn at(self, place: usize) -> Fault
        ensures { result ≡ fault self place }
    {
        Fault {
            reason: self,
            place,
        }
    }

    /// Refuses for this reason where a test tells to.
    pub fn refuse_if(self, test: bool, place: usize) -> Result<(), Fault>
        ensures { result ≡ (if test then Err (fault self place) else Ok tt) }
    {
        if test { Err(self.at(place)) } else { Ok(()) }
    }
}

impl From<Reason> for u16 {
    ghost from_gives = { λ reason number. number ≡ number_of reason };

    fn from(reason: Reason) -> u16 {
        reason as u16
    }
}

/// A refusal, at a line, a cell or a count of steps.
#[derive(Clone, Copy, Drop)]
pub struct Fault {
    pub reason: Reason,
    pub place: usize,
}

/// No memory was left, or a fault.
#[derive(Drop)]
pub enum Halt {
    Memory(AllocError),
    Fault(Fault),
}

/// The answer or its fault, or that no memory was left.
pub fn settled<T: Drop>(answer: Result<T, Halt>) -> Result<Result<T, Fault>, AllocError>
    ensures { result ≡ outcome_of answer }
{
    match answer {
        Ok(value) => Ok(Ok(value)),
        Err(Halt::Fault(fault)) => Ok(Err(fault)),
        Err(Halt::Memory(error)) => Err(error),
    }
}

impl From<Fault> for Halt {
    ghost from_gives = { λ fault r. r ≡ FaultHalt fault };

    fn from(fault: Fault) -> Halt {
        Halt::Fault(fault)
    }
}

impl From<AllocError> for Halt {
    ghost from_gives = { λ error r. r ≡ Memory error };

    fn from(error: AllocError) -> Halt {
        Halt::Memory(error)
    }
}

impl<T: Drop> From<AllocFailed<T>> for Halt {
    ghost from_gives = { λ _ r. r ≡ Memory alloc_error };

    fn from(error: AllocFailed<T>) -> Halt {
        Halt::Memory(AllocError::from(error))
    }
}
