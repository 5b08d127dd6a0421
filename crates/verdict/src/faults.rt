//! Why a program is refused, and at which cell.

ghost use Rattle.std.specs.Prelude.{◌≡◌, if◌then◌else◌, Err};
ghost use Rattle.trees.specs.Failing.{none_at};
ghost use Rattle.verdict.specs.Faults.{accepted, fault, number_of};

/// Why a program is refused, each reason with its number.
#[derive(Clone, Copy, PartialEq, Eq, Debug, Drop)]
pub enum CheckReason {
    /// More cells than a table may have.
    TooManyCells = 20,
    /// An unknown letter, a stored qubit name, or an argument that the letter does not allow.
    BadCell = 21,
    /// The types are not whole trees, or the term is not exactly one.
    NotWhole = 22,
    /// A claim that is no place of the type table.
    ClaimOutside = 23,
    /// One binder too many in scope.
    TooDeep = 24,
    /// A variable that no binder binds.
    NoBinder = 25,
    /// A claim against its typing rule.
    WrongClaim = 26,
    /// A variable that is not duplicable, used in two parts.
    UsedTwice = 27,
    /// A duplicable function that uses an outer variable which is not.
    Captures = 28,
}

impl CheckReason {
    /// The number of the fault, from 20 to 28.
    pub fn number(self) -> u16
        ensures { result ≡ number_of self }
    {
        self as u16
    }

    /// The fault for this reason at a cell.
    #[inline(always)]
    pub fn at(self, cell: usize) -> CheckFault
        ensures { result ≡ fault self cell }
    {
        CheckFault { reason: self, cell }
    }

    /// Refuses for this reason at a cell where the test holds.
    #[inline(always)]
    pub fn refuse_if(self, test: bool, cell: usize) -> Result<(), CheckFault>
        ensures { result ≡ (if test then Err (fault self cell) else accepted) }
    {
        if test { Err(self.at(cell)) } else { Ok(()) }
    }

    /// Refuses for this reason at the cell that was found, if one was.
    #[inline(always)]
    pub fn refuse_at(self, found: Option<usize>) -> Result<(), CheckFault>
        ensures { result ≡ none_at (fault self) found accepted }
    {
        match found {
            Some(cell) => Err(self.at(cell)),
            None => Ok(()),
        }
    }
}

/// A refused program: the reason, and the cell at fault. The cell is of the type table or of the
/// term table for the reasons up to `NotWhole`, and of the term table for the others.
#[derive(Clone, Copy, PartialEq, Eq, Debug, Drop)]
pub struct CheckFault {
    pub reason: CheckReason,
    pub cell: usize,
}

impl CheckFault {
    /// The number of the fault, from 20 to 28.
    pub fn number(self) -> u16
        ensures { result ≡ number_of self.reason }
    {
        self.reason.number()
    }
}
