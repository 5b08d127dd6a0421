//! The verdict on a term, in tree order.

ghost use Rattle.std.specs.Prelude.{◌≡◌, ◌+◌, ◌<◌, ◌≤◌, length, IfOk};
ghost use Rattle.checker.specs.Judging.{term_of, verdict_of, with_binders};
ghost use Rattle.checker.specs.Meaning.{meaning};
ghost use Rattle.checker.specs.Scoping.{UsesOf, depth, in_scope};
ghost use Rattle.checker.specs.Tested.{Tested};
ghost use Rattle.verdict.specs.Judging.{entering, verdict, verdict_from};

use crate::leaving::{apart, uncaptured};
use crate::program::{Node, Program};
use crate::rules::claims_agree;
use crate::scope::{Entered, Scope, test_depth};
use crate::used::Used;
use calculus::{TermCell, TypeCell};
use subtyping::{Core, TypeAt};
use verdict::{CheckFault, CheckReason};

// The tests of a cell before its parts: the binders in scope, then the claims.
#[inline(always)]
fn enter(node: Node<'_>, scope: &Scope<'_>) -> Result<(), CheckFault>
    ensures { result ≡ entering node.entry.at (in_scope scope.now) (term_of node.entry) }
{
    test_depth(node.cell(), node.at, scope.binders.len())?;
    CheckReason::WrongClaim.refuse_if(!claims_agree(node, scope), node.at)
}

// Judges a term under more binders, the outermost first, which are left again on every way out.
#[cycle(judge_judge_under)]
fn judge_under<'a>(
    node: Node<'a>,
    binders: &[TypeAt<'a>],
    scope: &mut Scope<'a>,
) -> Result<Used, CheckFault>
    requires { depth scope.old + length binders.now ≤ 32 }
    ensures verdict { verdict_of result ≡ verdict_from node.entry.at
        (with_binders binders.now (in_scope scope.old)) (term_of node.entry) }
    ensures used { IfOk result
        (λ u. UsesOf u (depth scope.old + length binders.now) (term_of node.entry)) }
    ensures kept { scope.new ≡ scope.old }
{
    let before = scope.binders.len();
    scope.binders.try_extend_from_slice(binders).unwrap();
    let entered = Entered { scope, before };
    judge(node, &mut *entered.scope)
}

/// The binders that a term uses, or its first fault: of a cell, then of its parts in order, then on
/// leaving it.
#[cycle(judge_judge_under)]
pub(crate) fn judge<'a>(node: Node<'a>, scope: &mut Scope<'a>) -> Result<Used, CheckFault>
    ensures verdict { verdict_of result
        ≡ verdict_from node.entry.at (in_scope scope.old) (term_of node.entry) }
    ensures used { IfOk result (λ u. UsesOf u (depth scope.old) (term_of node.entry)) }
    ensures kept { scope.new ≡ scope.old }
{
    enter(node, scope)?;
    let cell = node.cell();
    match cell.op {
        'v' => Ok(Used::only(scope.binders.len() - 1 - cell.argument as usize)),
        'l' => {
            let (marks, core) = node.claim().take_apart();
            let Core::Arrow(binder, _) = core else {
                unreachable!()
            };
            let used = judge_under(node.part(0), &[binder], scope)?;
            uncaptured(scope, used, marks, node.at)
        }
        'a' | 'p' => {
            let left = judge(node.part(0), scope)?;
            let right = judge(node.part(1), scope)?;
            apart(scope, left, right, node.at)
        }
        'd' => {
            let pair = node.part(0);
            let (outer, inner) = pair.claim().components().unwrap();
            let given = judge(pair, scope)?;
            let body = judge_under(node.part(1), &[outer, inner], scope)?;
            apart(scope, given, body, node.at)
        }
        'i' => {
            let condition = judge(node.part(0), scope)?;
            let then = judge(node.part(1), scope)?;
            let other = judge(node.part(2), scope)?;
            apart(scope, condition, then.either(other), node.at)
        }
        _ => Ok(Used::none()),
    }
}

/// The verdict on the whole term of tables that passed their tests.
pub(crate) fn judge_term(types: &[TypeCell], terms: &[TermCell]) -> Result<(), CheckFault>
    requires tested { Tested types.now terms.now }
    requires begun { 0 < length terms.now }
    ensures { result ≡ verdict (meaning types.now terms.now 0) }
{
    let program = Program::new(types, terms);
    let term = Node::new(&program, 0);
    let mut scope = Scope::new(term.claim());
    judge(term, &mut scope)?;
    Ok(())
}
