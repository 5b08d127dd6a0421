//! The check of a whole program, programs that passed it, and what holds of both.

ghost use Rattle.std.specs.Prelude.{◌≡◌, ◌↔◌, true, is_ok, IfOk};
ghost use Rattle.checker.specs.Accepting.{CheckingIsExact, IsDerivable, accepts, program_verdict};
ghost use Rattle.checker.specs.Judging.{verdict_of};
ghost use Rattle.checker.specs.Sheet.{FirstRowAnswers, Holds, Sooner, fault_of};
ghost use Rattle.verdict.specs.Sheet.{Answers};

use crate::judging::judge_term;
use crate::tables::test_tables;
use calculus::{TermCell, TypeCell};
use verdict::CheckFault;

/// A program that passed its check: both tables, lent as long as the acceptance is in use.
#[derive(Drop)]
pub struct Accepted<'a> {
    types: &'a [TypeCell],
    terms: &'a [TermCell],
    ghost checked: { accepts types.now terms.now ≡ true },
}

impl<'a> Accepted<'a> {
    /// The type table.
    pub fn types(&self) -> &'a [TypeCell]
        ensures { result.now ≡ self.now.types.now }
    {
        self.types
    }

    /// The term table.
    pub fn terms(&self) -> &'a [TermCell]
        ensures { result.now ≡ self.now.terms.now }
    {
        self.terms
    }
}

/// Checks both tables as wholes, and then the term and its claims against the typing rules; an
/// accepted program is lent its tables. A refusal is by the first row of the sheet that holds.
pub fn check<'a>(types: &'a [TypeCell], terms: &'a [TermCell]) -> Result<Accepted<'a>, CheckFault>
    ensures verdict { verdict_of result ≡ program_verdict types.now terms.now }
    ensures tables { IfOk result (λ p. (p.types.now ≡ types.now) × (p.terms.now ≡ terms.now)) }
    ensures derivable { (is_ok result ≡ true) ↔ IsDerivable types.now terms.now }
    ensures first { Answers (Holds types.now terms.now) Sooner fault_of (verdict_of result) }
{
    test_tables(types, terms)?;
    judge_term(types, terms)?;
    Ok(Accepted { types, terms })
}

/// Two tables are accepted just where they store a term that has a derivation with its claims,
/// within the limits.
pub fn checking_is_exact()
    ensures { CheckingIsExact }
{}

/// The verdict on a program is the first row of the sheet that holds for it: acceptance where none
/// holds, and else the refusal by one, at its cell, before which none does.
pub fn the_first_row_answers()
    ensures { FirstRowAnswers }
{}
