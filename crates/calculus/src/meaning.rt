//! What cells mean, and what the tests of types decide. Each function stands for a theorem: its
//! contract is the theorem's statement.

ghost use Rattle.calculus.specs.Reading.{ReadingLaws};
ghost use Rattle.calculus.specs.Stripping.{SameExact, SubtypeExact};

/// Cells are read as the types and terms that they were written for, and as no others.
pub fn cells_are_read()
    ensures { ReadingLaws }
{}

/// The test of equal types decides equality.
pub fn same_is_exact()
    ensures { SameExact }
{}

/// Subtyping is decided by stripping marks, comparing heads and testing the parts.
pub fn subtype_is_exact()
    ensures { SubtypeExact }
{}
