//! Worked terms: short programs, types and running terms, with what the definitions say of each.
#![tactic(auto)]

ghost use Rattle.worked.specs.Worked.{WorkedTerms};

/// What stands in one table holds. Of each worked term and each constant: its verdict and its
/// derivation, or the refusal and that there is none. Of tables past a limit, or that store no
/// program: the refusal. Of two types: whether one is below the other. Of a running term: where no
/// rule applies, or which term some steps lead to, and how many qubits are then live.
pub fn worked_terms_hold()
    ensures { WorkedTerms }
{}
