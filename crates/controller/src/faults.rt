//! Why a call is refused, and why a run stops.

ghost use Rattle.std.specs.Prelude.{◌≡◌, if◌then◌else◌};
ghost use Rattle.controller.specs.declared.faults.ControllerFault.TheVariants.{NoRule, Register};
ghost use Rattle.controller.specs.Faults.{fault_number};

use finder::FindFault;
use registers::RegisterFault;

/// A fault of a call of the controller.
#[derive(Clone, Copy, PartialEq, Eq, Debug, Drop)]
pub enum ControllerFault {
    NothingLoaded,
    AlreadyLoaded,
    /// The program names a gate that the register does not make.
    GateNotMade,
    /// The work table is shorter than a running term may be.
    ShortTable,
    /// A step of a value.
    AtValue,
    NoRule,
    /// The next term would have too many cells.
    TooLong,
    /// The running term is no value yet.
    NoValue,
    /// A table for the value or its type is too short.
    ShortTables,
    /// The register refused what the step asked of it.
    Register(RegisterFault),
}

impl ControllerFault {
    /// The fault's number.
    pub fn number(self) -> u16
        ensures { result ≡ fault_number self }
    {
        match self {
            ControllerFault::NothingLoaded => 31,
            ControllerFault::AlreadyLoaded => 32,
            ControllerFault::GateNotMade => 33,
            ControllerFault::ShortTable => 34,
            ControllerFault::AtValue => 35,
            ControllerFault::NoRule => 36,
            ControllerFault::TooLong => 37,
            ControllerFault::NoValue => 38,
            ControllerFault::ShortTables => 39,
            ControllerFault::Register(fault) => fault.number(),
        }
    }

    /// Refuses with the fault where the test holds.
    pub fn refuse_if(self, test: bool) -> Result<(), ControllerFault>
        ensures { result ≡ (if test then Err self else Ok tt) }
    {
        if test { Err(self) } else { Ok(()) }
    }

    // The refusal of a call for the fault, at a place.
    pub(crate) fn at(self, place: u64) -> Refusal
        ensures { result ≡ record { fault = self; place = place } }
    {
        Refusal { fault: self, place }
    }
}

impl From<RegisterFault> for ControllerFault {
    ghost from_gives = { λ f c. c ≡ Register f };

    fn from(fault: RegisterFault) -> ControllerFault {
        ControllerFault::Register(fault)
    }
}

impl From<FindFault> for ControllerFault {
    ghost from_gives = { λ _ c. c ≡ NoRule };

    fn from(_fault: FindFault) -> ControllerFault {
        ControllerFault::NoRule
    }
}

/// A refused call: its fault and its place. The place is the steps made since the load or, for a
/// gate not made, the cell that names it.
#[derive(Clone, Copy, PartialEq, Eq, Debug, Drop)]
pub struct Refusal {
    pub fault: ControllerFault,
    pub place: u64,
}

/// Why a run stopped.
#[derive(Clone, Copy, PartialEq, Eq, Debug, Drop)]
pub enum Stop {
    Value,
    Budget,
    /// A step was refused, after so many steps since the load.
    Refused { fault: ControllerFault, steps: u64 },
}
