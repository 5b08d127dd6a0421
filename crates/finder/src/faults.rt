//! Why no rule is found, and at which cell.

ghost use Rattle.std.specs.Prelude.{◌≡◌, Ok};
ghost use Rattle.trees.specs.Failing.{none_at};
ghost use Rattle.finder.specs.Faults.{fault, number_of};

/// Why no rule is found, each reason with its number.
#[derive(Clone, Copy, PartialEq, Eq, Debug, Drop)]
pub enum FindReason {
    /// More cells than a running term may have.
    TooManyCells = 20,
    /// An unknown letter, or an argument that the letter does not allow.
    BadCell = 21,
    /// The cells are not exactly one tree.
    NotWhole = 22,
    /// The parts that are worked first are values, and no rule applies.
    NoRule = 36,
}

impl FindReason {
    /// The number of the fault: 20 to 22, or 36.
    pub fn number(self) -> u16
        ensures { result ≡ number_of self }
    {
        self as u16
    }

    /// The fault for this reason at a cell.
    pub fn at(self, cell: usize) -> FindFault
        ensures { result ≡ fault self cell }
    {
        FindFault { reason: self, cell }
    }

    /// Refuses for this reason at the cell that was found, if one was.
    pub fn refuse_at(self, found: Option<usize>) -> Result<(), FindFault>
        ensures { result ≡ none_at (fault self) found (Ok tt) }
    {
        match found {
            Some(cell) => Err(self.at(cell)),
            None => Ok(()),
        }
    }
}

/// No rule is found: the reason, and the cell at fault.
#[derive(Clone, Copy, PartialEq, Eq, Debug, Drop)]
pub struct FindFault {
    pub reason: FindReason,
    pub cell: usize,
}

impl FindFault {
    /// The number of the fault: 20 to 22, or 36.
    pub fn number(self) -> u16
        ensures { result ≡ number_of self.reason }
    {
        self.reason.number()
    }
}
