//! The refusals of a register.

ghost use Rattle.std.specs.Prelude.{◌≡◌, if◌then◌else◌};
ghost use Rattle.registers.specs.Answers.{number_of};

/// Why a register refuses a call, each reason with its number.
#[derive(Clone, Copy, PartialEq, Eq, Debug, Drop)]
pub enum RegisterReason {
    NoPulses = 41,
    Full = 42,
    GateNotMade = 43,
    WrongCount = 44,
    NotLive = 45,
    GivenTwice = 46,
}

impl RegisterReason {
    /// The number by which a listing names the reason.
    pub fn number(self) -> u16
        ensures { result ≡ number_of self }
    {
        self as u16
    }

    /// Refuses for this reason where the test holds, as the outermost register.
    pub fn refuse_if(self, test: bool) -> Result<(), RegisterFault>
        ensures { result ≡ (if test then Err (record { reason = self; depth = 0 }) else Ok tt) }
    {
        if test {
            Err(RegisterFault::new(self))
        } else {
            Ok(())
        }
    }
}

/// A refusal: its reason, and how many layers lie above the register that gave it.
#[derive(Clone, Copy, PartialEq, Eq, Debug, Drop)]
pub struct RegisterFault {
    pub reason: RegisterReason,
    pub depth: u16,
}

impl RegisterFault {
    /// A refusal of the outermost register.
    pub fn new(reason: RegisterReason) -> RegisterFault
        ensures { result ≡ record { reason = reason; depth = 0 } }
    {
        RegisterFault { reason, depth: 0 }
    }

    /// The number of its reason.
    pub fn number(self) -> u16
        ensures { result ≡ number_of self.reason }
    {
        self.reason.number()
    }
}
