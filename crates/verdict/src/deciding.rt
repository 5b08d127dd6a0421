//! What the verdict decides. Each function stands for a theorem: its contract is the theorem's
//! statement.

ghost use Rattle.verdict.specs.Judging.{AcceptanceIsDerivability, AcceptanceIsDerivabilityBelow};
ghost use Rattle.verdict.specs.Sheet.{FirstRowAnswers};
ghost use Rattle.verdict.specs.Uses.{UsesAreFree};

/// Accepted are just the terms that have a derivation with their claims and nest up to 32 binders.
pub fn acceptance_is_derivability()
    ensures { AcceptanceIsDerivability }
{}

/// The same for a term below binders, in the context of their types.
pub fn acceptance_is_derivability_below()
    ensures { AcceptanceIsDerivabilityBelow }
{}

/// The verdict on a term is the first row of the sheet that holds for it: acceptance where none
/// holds, and else the refusal by one, at its cell, before which none does.
pub fn the_first_row_answers()
    ensures { FirstRowAnswers }
{}

/// A term uses just its free variables.
pub fn uses_are_free()
    ensures { UsesAreFree }
{}
