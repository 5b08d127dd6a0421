//! Types drawn at random, each with closed values, and the types of the constants.

ghost use Rattle.std.specs.Prelude.{◌≡◌, ◌<◌, IfOk};
ghost use Rattle.calculus.specs.Cells.{const_op, const_argument};
ghost use Rattle.calculus.specs.Stripping.{marks};
ghost use Rattle.calculus.specs.Terms.{type_of};
ghost use Rattle.kinds.specs.Kinds.{kind_type};
ghost use Rattle.samples.specs.Constants.{const_of};

use crate::random::Random;
use calculus::Gate;
use kinds::{Head, Kind, same};
use std::alloc::{AllocError, Global};

/// A constant that is a function.
#[derive(Clone, Copy, Drop)]
pub enum Function {
    Gate(Gate),
    New,
    Measure,
}

/// The constants that are functions: the gates by rising number, then `n` and `m`.
pub const FUNCTIONS: [Function; 10] = [
    Function::Gate(Gate::H),
    Function::Gate(Gate::X),
    Function::Gate(Gate::Z),
    Function::Gate(Gate::S),
    Function::Gate(Gate::T),
    Function::Gate(Gate::Cnot),
    Function::Gate(Gate::Swap),
    Function::Gate(Gate::Toffoli),
    Function::New,
    Function::Measure,
];

/// How many of these are gates: the first ones.
pub const GATE_COUNT: usize = 8;

impl Function {
    /// The op and the argument of the constant's cell.
    pub fn cell(self) -> (char, u16)
        ensures { result ≡ (const_op (const_of self), const_argument (const_of self)) }
    {
        match self {
            Function::Gate(gate) => ('g', u16::from(gate)),
            Function::New => ('n', 0),
            Function::Measure => ('m', 0),
        }
    }

    /// The constant's own type.
    pub fn own(self, heap: Global) -> Result<Kind, AllocError>
        ensures { IfOk result (λ k. kind_type k ≡ type_of (const_of self)) }
    {
        match self {
            Function::Gate(gate) => {
                let qubits = Kind::qubits(heap, gate.operands())?;
                Kind::arrow(heap, 1, qubits.clone()?, qubits)
            }
            Function::New => Kind::arrow(heap, 1, Head::Bit.marked(0), Head::Qubit.marked(0)),
            Function::Measure => Kind::arrow(heap, 1, Head::Qubit.marked(0), Head::Bit.marked(1)),
        }
    }

    /// Whether the constant's argument has just this type.
    pub fn takes(self, heap: Global, argument: &Kind) -> Result<bool, AllocError> {
        let own = self.own(heap)?;
        Ok(matches!(&own.head, Head::Arrow(a, _) if same(argument, a)))
    }
}

// A count of leading marks, mostly none.
fn any_marks(random: &mut Random) -> usize
    ensures { result < 3 }
{
    match random.below(10) {
        0 | 1 => 1,
        2 => 2,
        _ => 0,
    }
}

/// A type with closed values, so many levels deep at most. Where it may not hold qubits, its values
/// may be marked.
pub fn any_kind(
    random: &mut Random,
    heap: Global,
    depth: u32,
    holds_qubits: bool,
) -> Result<Kind, AllocError>
    ensures { IfOk result (λ k. marks (kind_type k) < 3) }
{
    let marks = any_marks(random);
    let choice = random.below(if depth == 0 { 6 } else { 15 });
    match choice {
        0 | 1 => Ok(Head::Bit.marked(marks)),
        2 => Ok(Head::Unit.marked(marks)),
        3..=5 if holds_qubits => Ok(Head::Qubit.marked(0)),
        3..=5 => Ok(Head::Bit.marked(1)),
        _ if depth == 0 => Ok(Head::Bit.marked(0)),
        14 if holds_qubits => Kind::qubits(heap, if random.chance(50) { 2 } else { 3 }),
        _ => {
            let is_arrow = choice < 10;
            let holds_qubits = is_arrow || holds_qubits && marks == 0;
            let a = any_kind(random, heap, depth - 1, holds_qubits)?;
            let b = any_kind(random, heap, depth - 1, holds_qubits)?;
            if is_arrow {
                Kind::arrow(heap, marks, a, b)
            } else {
                Kind::pair(heap, marks, a, b)
            }
        }
    }
}

/// A type of pairs with closed values, whose components are one level deep at most.
pub fn any_pair(random: &mut Random, heap: Global) -> Result<Kind, AllocError> {
    let marks = usize::from(random.chance(25));
    let left = any_kind(random, heap, 1, marks == 0)?;
    Kind::pair(heap, marks, left, any_kind(random, heap, 1, marks == 0)?)
}
