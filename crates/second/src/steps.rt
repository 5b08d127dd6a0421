//! The call-by-value rules of "A lambda calculus for quantum computation with classical control",
//! on named terms: what each step leaves.

ghost use Rattle.std.specs.Prelude.{◌≡◌};
ghost use Rattle.second.specs.Terms.{qubit_of, two_qubits_of, operands_of, leaf_bit};
ghost use Rattle.second.specs.declared.terms.Term.TheVariants.{Constant as ConstantTerm};

use crate::halt::{Halt, Reason};
use crate::nodes::Constant;
use crate::tape::{Operands, Tape};
use crate::terms::{Term, put};

// The handle of a term that is a qubit.
fn qubit(term: &Term) -> Option<u16>
    ensures { result ≡ qubit_of term.now }
{
    match term {
        Term::Constant(Constant::Qubit(handle)) => Some(*handle),
        _ => None,
    }
}

// The handles of a term that is a pair of qubits.
fn two_qubits(term: &Term) -> Option<(u16, u16)>
    ensures { result ≡ two_qubits_of term.now }
{
    match term {
        Term::Pair(a, b) => qubit(a).zip(qubit(b)),
        _ => None,
    }
}

/// The qubits of a value that is as many as a gate takes; three are one and a pair.
pub fn operands(gate: u16, on: &Term) -> Option<Operands>
    ensures { result ≡ operands_of gate on.now }
{
    match gate {
        0..=4 => qubit(on).map(|a| Operands::One(a)),
        5 | 6 => two_qubits(on).map(|(a, b)| Operands::Two(a, b)),
        _ => match on {
            Term::Pair(a, rest) => qubit(a)
                .zip(two_qubits(rest))
                .map(|(a, (b, c))| Operands::Three(a, b, c)),
            _ => None,
        },
    }
}

fn bit_term(value: bool) -> Term
    ensures { result ≡ ConstantTerm (leaf_bit value) }
{
    Term::Constant(if value { Constant::One } else { Constant::Zero })
}

// A constant applied to a value.
fn apply_constant(leaf: Constant, value: &Term, tape: &mut Tape) -> Result<Term, Halt> {
    match (leaf, value) {
        (Constant::New, Term::Constant(bit @ (Constant::Zero | Constant::One))) => {
            let handle = tape.prepare(*bit == Constant::One)?;
            Ok(Term::Constant(Constant::Qubit(handle)))
        }
        (Constant::Measure, Term::Constant(Constant::Qubit(handle))) => Ok(bit_term(tape.read(
            *handle,
        )?)),
        (Constant::Gate(gate), on) => {
            tape.gate(gate, operands(gate, on).ok_or(Reason::NoRule.at(0))?)?;
            Ok(on.clone()?)
        }
        _ => Err(Reason::NoRule.at(0).into()),
    }
}

// A value applied to a value.
fn apply(function: &Term, value: &Term, tape: &mut Tape) -> Result<Term, Halt> {
    match function {
        Term::Lambda(x, body) => {
            let mut body = Term::clone(body)?;
            put(&mut body, *x, value)?;
            Ok(body)
        }
        Term::Constant(leaf) => apply_constant(*leaf, value, tape),
        _ => Err(Reason::NoRule.at(0).into()),
    }
}

// The body of a split whose pair is a value.
fn split(x: u32, y: u32, pair: &Term, body: &Term) -> Result<Term, Halt> {
    match pair {
        Term::Pair(v, w) => {
            let mut body = body.clone()?;
            put(&mut body, x, v)?;
            put(&mut body, y, w)?;
            Ok(body)
        }
        _ => Err(Reason::NoRule.at(0).into()),
    }
}

// The branch that a condition that is a value leaves.
fn choose(condition: &Term, one: &Term, zero: &Term) -> Result<Term, Halt> {
    match condition {
        Term::Constant(Constant::One) => Ok(one.clone()?),
        Term::Constant(Constant::Zero) => Ok(zero.clone()?),
        _ => Err(Reason::NoRule.at(0).into()),
    }
}

/// Makes one step in the term, and tells whether there was one to make; a value has none.
pub fn advance(term: &mut Term, tape: &mut Tape) -> Result<bool, Halt> {
    let next = match term {
        Term::Variable(_) | Term::Constant(_) | Term::Lambda(_, _) => return Ok(false),
        Term::Apply(function, argument) => {
            if advance(argument, tape)? || advance(function, tape)? {
                return Ok(true);
            }
            apply(function, argument, tape)?
        }
        Term::Pair(left, right) => return Ok(advance(left, tape)? || advance(right, tape)?),
        Term::Split(x, y, pair, body) => {
            if advance(pair, tape)? {
                return Ok(true);
            }
            split(*x, *y, pair, body)?
        }
        Term::Choose(condition, one, zero) => {
            if advance(condition, tape)? {
                return Ok(true);
            }
            choose(condition, one, zero)?
        }
    };
    *term = next;
    Ok(true)
}
