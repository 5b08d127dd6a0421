//! What a call answers to a caller that knows numbers only.

ghost use Rattle.std.specs.Prelude.{◌≡◌};
ghost use Rattle.numbers.specs.Verdicts.{refusal, check_refusal, find_refusal};
ghost use Rattle.numbers.specs.Verdicts.{read_refusal, call_refusal};

use checker::CheckFault;
use controller::Refusal;
use finder::FindFault;
use reader::ReadFault;

/// The answer of a call. A number that the call has no use for is 0.
#[repr(C)]
#[derive(Clone, Copy, Drop)]
pub struct Verdict {
    /// The number of the fault, 1 where a run spent its budget, else 0.
    pub number: u16,
    /// The rule that applies to a running term, from 1 on; 0 for none.
    pub rule: u16,
    /// The line or the cell at fault, the steps made before a refused step, or the cell at which
    /// the rule applies.
    pub place: u64,
    /// The steps that a run made, however it stopped.
    pub steps: u64,
    /// The type cells of a program that was read, or of a value's type.
    pub type_cells: u64,
    /// The term cells of a program that was read, of the next term, or of a value.
    pub term_cells: u64,
}

/// The verdict on a call that was accepted and has nothing more to tell.
pub const ACCEPTED: Verdict = Verdict {
    number: 0,
    rule: 0,
    place: 0,
    steps: 0,
    type_cells: 0,
    term_cells: 0,
};

/// The verdict on a refused call.
pub fn refused(number: u16, place: u64) -> Verdict
    ensures { result ≡ refusal number place }
{
    Verdict {
        number,
        place,
        ..ACCEPTED
    }
}

/// A program that the checker refused.
impl From<CheckFault> for Verdict {
    ghost from_gives = { λ fault verdict. verdict ≡ check_refusal fault };

    fn from(fault: CheckFault) -> Verdict {
        refused(fault.number(), fault.cell as u64)
    }
}

/// A running term for which the finder has no answer.
impl From<FindFault> for Verdict {
    ghost from_gives = { λ fault verdict. verdict ≡ find_refusal fault };

    fn from(fault: FindFault) -> Verdict {
        refused(fault.number(), fault.cell as u64)
    }
}

/// A text that the reader refused.
impl From<ReadFault> for Verdict {
    ghost from_gives = { λ fault verdict. verdict ≡ read_refusal fault };

    fn from(fault: ReadFault) -> Verdict {
        refused(fault.number(), fault.line as u64)
    }
}

/// A call that the controller refused.
impl From<Refusal> for Verdict {
    ghost from_gives = { λ refusal verdict. verdict ≡ call_refusal refusal };

    fn from(refusal: Refusal) -> Verdict {
        refused(refusal.fault.number(), refusal.place)
    }
}
