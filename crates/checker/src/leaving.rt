//! The tests of the variables that the parts of a cell use, made on leaving it.

ghost use Rattle.std.specs.Prelude.{◌≡◌, ℕ, ◌||◌, IfOk};
ghost use Rattle.checker.specs.Judging.{verdict_of};
ghost use Rattle.checker.specs.Scoping.{depth, has, in_scope, used_below};
ghost use Rattle.verdict.specs.Sharing.{apart, uncaptured};

use crate::scope::{Scope, is_clear};
use crate::used::Used;
use verdict::{CheckFault, CheckReason};

/// The binders that two parts use, where those that both use are duplicable.
pub(crate) fn apart(
    scope: &Scope<'_>,
    left: Used,
    right: Used,
    at: usize,
) -> Result<Used, CheckFault>
    ensures verdict { verdict_of result ≡ apart at (in_scope scope.now)
        (used_below left (depth scope.now)) (used_below right (depth scope.now)) }
    ensures used { IfOk result (λ u. (k : ℕ) → has u k ≡ (has left k || has right k)) }
{
    CheckReason::UsedTwice.refuse_if(!is_clear(scope, left.shared(right)), at)?;
    Ok(left.either(right))
}

/// The binders that a function uses, where a duplicable function uses duplicable ones only.
pub(crate) fn uncaptured(
    scope: &Scope<'_>,
    used: Used,
    marks: usize,
    at: usize,
) -> Result<Used, CheckFault>
    ensures verdict { verdict_of result
        ≡ uncaptured at (in_scope scope.now) marks (used_below used (depth scope.now)) }
    ensures used { IfOk result (λ u. u ≡ used) }
{
    CheckReason::Captures.refuse_if(marks > 0 && !is_clear(scope, used), at)?;
    Ok(used)
}
