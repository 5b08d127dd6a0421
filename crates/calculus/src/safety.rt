//! Subtyping, typing, reduction, and the safety of the calculus. Each function stands for a
//! theorem: its contract is the theorem's statement.

ghost use Rattle.calculus.specs.Erasure.{ErasureLaws};
ghost use Rattle.calculus.specs.Lemmas.{SubtypingLaws, TypingLaws};
ghost use Rattle.calculus.specs.Runs.{SafeRuns};
ghost use Rattle.calculus.specs.Safety.{SubjectReduction, Progress, GatesAreApart};
ghost use Rattle.calculus.specs.Safety.{NoWayNamesTwice, Deterministic, ValuesRest};
ghost use Rattle.calculus.specs.Safety.{OneRequest, DuplicableValuesNameNone};
ghost use Rattle.calculus.specs.Samples.{Judged};

/// A well-typed term that takes a step keeps its type.
pub fn terms_keep_their_type()
    ensures { SubjectReduction }
{}

/// A well-typed term that is no value takes a step, whatever the register answers.
pub fn terms_go_on()
    ensures { Progress }
{}

/// A gate that a well-typed term applies is given no qubit twice.
pub fn gates_are_apart()
    ensures { GatesAreApart }
{}

/// No way through a well-typed term names a qubit twice.
pub fn no_way_names_twice()
    ensures { NoWayNamesTwice }
{}

/// A term and what the register answers determine the next term.
pub fn steps_are_determined()
    ensures { Deterministic }
{}

/// A value takes no step.
pub fn values_rest()
    ensures { ValuesRest }
{}

/// Subtyping is a preorder, and goes along with marks of duplicability.
pub fn subtyping_is_lawful()
    ensures { SubtypingLaws }
{}

/// Typing looks at free variables alone, allows subtypes and a value for a variable of its type,
/// and tells a value's form.
pub fn typing_is_lawful()
    ensures { TypingLaws }
{}

/// Wherever a run of a well-typed term comes, the term has its type. It is a value or has a next
/// step.
pub fn runs_are_safe()
    ensures { SafeRuns }
{}

/// Of two terms that differ in one handle, one is well-typed and one is not.
pub fn samples_are_judged()
    ensures { Judged }
{}

/// A term asks the register for one thing, and its next term has one size, whatever the answer.
pub fn requests_are_one()
    ensures { OneRequest }
{}

/// A value of a duplicable type names no qubit.
pub fn duplicable_values_name_none()
    ensures { DuplicableValuesNameNone }
{}

/// A term that claims nothing has every type that its claimed form has.
pub fn claims_may_be_forgotten()
    ensures { ErasureLaws }
{}
