//! The record of binders in scope, the tests of its depth and of what is duplicable in it, and the
//! guard that leaves binders.

ghost use Rattle.std.specs.Prelude.{◌≡◌, ◌≤◌, [], take};
ghost use Rattle.calculus.specs.Stripping.{duplicable};
ghost use Rattle.checker.specs.Scoping.{binders_of, depth, depth_tested, in_scope, used_below};
ghost use Rattle.subtyping.specs.Meaning.{meant};
ghost use Rattle.verdict.specs.Sharing.{all_duplicable};

use crate::used::Used;
use arrayvec::ArrayVec;
use calculus::{MOST_BINDERS, TermCell};
use subtyping::TypeAt;
use verdict::{CheckFault, CheckReason};

/// The types of the binders in scope, the outermost first.
#[derive(Drop)]
pub struct Scope<'a> {
    pub binders: ArrayVec<TypeAt<'a>, MOST_BINDERS, TypeAt<'a>>,
}

impl<'a> Scope<'a> {
    /// No binder; the type fills the places that are not in use.
    pub(crate) fn new(blank: TypeAt<'a>) -> Scope<'a>
        ensures { result.binders.items ≡ [] }
    {
        Scope {
            binders: ArrayVec::new_in(blank),
        }
    }
}

/// A scope that gets its depth back on every way out.
pub struct Entered<'s, 'a> {
    pub scope: &'s mut Scope<'a>,
    pub before: usize,
}

impl Drop for Entered<'_, '_> {
    fn drop(self)
        ensures { self.exit.0.now.binders.items
            ≡ take self.entry.before self.entry.scope.now.binders.items }
    {
        let before = self.before;
        self.scope.binders.truncate(before);
        let Entered {
            scope: _,
            before: _,
        } = self;
    }
}

// How many binders the letter of a cell puts in scope.
fn binders_of(op: char) -> usize
    ensures { result ≡ binders_of op }
{
    match op {
        'l' => 1,
        'd' => 2,
        _ => 0,
    }
}

/// The tests of a cell that need only the number of binders in scope.
#[inline(always)]
pub(crate) fn test_depth(cell: TermCell, at: usize, depth: usize) -> Result<(), CheckFault>
    requires { depth ≤ 32 }
    ensures { result ≡ depth_tested at cell.op cell.argument depth }
{
    CheckReason::TooDeep.refuse_if(depth + binders_of(cell.op) > MOST_BINDERS, at)?;
    CheckReason::NoBinder.refuse_if(cell.op == 'v' && (cell.argument as usize) >= depth, at)
}

// Whether the values of a type may be copied.
fn is_duplicable(binder: TypeAt<'_>) -> bool
    ensures { result ≡ duplicable (meant binder.entry) }
{
    binder.kind() == '!'
}

/// Whether each binder in scope that is in the set has a duplicable type.
pub(crate) fn is_clear(scope: &Scope<'_>, used: Used) -> bool
    ensures { result ≡ all_duplicable (in_scope scope.now) (used_below used (depth scope.now)) }
{
    let mut binders = scope.binders.iter().enumerate();
    binders.all(|(level, binder)| !used.has(level) || is_duplicable(*binder))
}
