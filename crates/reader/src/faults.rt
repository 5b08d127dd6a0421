//! Why a stored program is refused, and at which line.

ghost use Rattle.std.specs.Prelude.{◌≡◌, if◌then◌else◌};
ghost use Rattle.reader.specs.Faults.{number_of};

/// Why a line is refused, with the number of the fault.
#[derive(Clone, Copy, PartialEq, Eq, Debug, Drop)]
pub enum ReadReason {
    /// Line 1 is not the header.
    Header = 11,
    /// The line is not allowed here, or its fields or letters are wrong.
    Line = 12,
    /// A number field is malformed.
    Number = 13,
    /// The table handed over, or the limit of a program, is full.
    Full = 14,
    /// The text ends where an ended line is due, or the counts differ.
    End = 15,
}

impl ReadReason {
    /// The number of the fault, from 11 to 15.
    pub fn number(self) -> u16
        ensures { result ≡ number_of self }
    {
        self as u16
    }

    /// The fault for this reason at a line.
    #[inline(always)]
    pub fn at(self, line: usize) -> ReadFault
        ensures { result ≡ record { reason = self; line = line } }
    {
        ReadFault { reason: self, line }
    }

    /// Refuses for this reason at a line where the test holds.
    #[inline(always)]
    pub fn refuse_if(self, test: bool, line: usize) -> Result<(), ReadFault>
        ensures { result ≡ (if test then Err (record { reason = self; line = line }) else Ok tt) }
    {
        if test { Err(self.at(line)) } else { Ok(()) }
    }
}

/// A refused read: the reason, and the number of the line at fault, from 1 on.
#[derive(Clone, Copy, PartialEq, Eq, Debug, Drop)]
pub struct ReadFault {
    pub reason: ReadReason,
    pub line: usize,
}

impl ReadFault {
    /// The number of the fault, from 11 to 15.
    pub fn number(self) -> u16
        ensures { result ≡ number_of self.reason }
    {
        self.reason.number()
    }
}
