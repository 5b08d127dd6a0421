//! Where the next step of a running term is, by cell.

ghost use Rattle.std.specs.Prelude.{◌≡◌};
ghost use Rattle.second.specs.Terms.{applied_of, branch_of, split_of};

use crate::nodes::Constant;
use crate::steps::operands;
use crate::terms::{Term, size};

/// The rules, by what they apply to.
#[derive(Clone, Copy, PartialEq, Debug, Drop)]
pub enum SecondRule {
    Function,
    Pair,
    Then,
    Else,
    Prepare,
    Read,
    Gates,
}

// The rule of a value applied to a value.
fn apply_rule(function: &Term, value: &Term) -> Option<SecondRule>
    ensures { result ≡ applied_of function.now value.now }
{
    match (function, value) {
        (Term::Lambda(_, _), _) => Some(SecondRule::Function),
        (Term::Constant(Constant::New), Term::Constant(Constant::Zero | Constant::One)) => Some(
            SecondRule::Prepare,
        ),
        (Term::Constant(Constant::Measure), Term::Constant(Constant::Qubit(_))) => Some(
            SecondRule::Read,
        ),
        (Term::Constant(Constant::Gate(gate)), on) => operands(*gate, on).map(
            |_| SecondRule::Gates,
        ),
        _ => None,
    }
}

// The rule of a condition that is a value.
fn choose_rule(condition: &Term) -> Option<SecondRule>
    ensures { result ≡ branch_of condition.now }
{
    match condition {
        Term::Constant(Constant::One) => Some(SecondRule::Then),
        Term::Constant(Constant::Zero) => Some(SecondRule::Else),
        _ => None,
    }
}

fn split_rule(pair: &Term) -> Option<SecondRule>
    ensures { result ≡ split_of pair.now }
{
    match pair {
        Term::Pair(_, _) => Some(SecondRule::Pair),
        _ => None,
    }
}

/// What a term whose root is at a cell waits for: nothing where it is a value, and else the cell
/// that is due, with the rule that applies there, if one does.
pub fn seek(term: &Term, at: usize) -> Option<(usize, Option<SecondRule>)> {
    let first = at.saturating_add(1);
    match term {
        Term::Variable(_) | Term::Constant(_) | Term::Lambda(_, _) => None,
        Term::Apply(function, argument) => {
            let found = match seek(argument, first.saturating_add(size(function))) {
                None => seek(function, first),
                found => found,
            };
            found.or_else(|| Some((at, apply_rule(function, argument))))
        }
        Term::Pair(left, right) => match seek(left, first) {
            None => seek(right, first.saturating_add(size(left))),
            found => found,
        },
        Term::Split(_, _, pair, _) => seek(pair, first).or_else(|| Some((at, split_rule(pair)))),
        Term::Choose(condition, _, _) => seek(condition, first).or_else(|| Some((
            at,
            choose_rule(condition),
        ))),
    }
}
