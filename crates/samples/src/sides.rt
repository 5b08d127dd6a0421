//! Types below others and above them, drawn by how subtyping is defined and by no test of it.

ghost use Rattle.std.specs.Prelude.{◌≡◌, IfOk};
ghost use Rattle.kinds.specs.Kinds.{kind_type};
ghost use Rattle.samples.specs.Sides.{IsBeside, MarksBeside, turned_side};

use crate::random::Random;
use kinds::{Head, Kind};
use std::alloc::{AllocError, Global};

/// The side of a type that another is on: its subtypes are below it, its supertypes above.
#[derive(Clone, Copy, Drop)]
pub enum Side {
    Below,
    Above,
}

impl Side {
    // The side that an argument's type is on where an arrow's is on this one.
    fn turned(self) -> Side
        ensures { result ≡ turned_side self }
    {
        match self {
            Side::Below => Side::Above,
            Side::Above => Side::Below,
        }
    }
}

// Whether there are values of the type that may be copied: none of one that holds a qubit in it or
// in a component.
fn is_copied(kind: &Kind) -> bool {
    match &kind.head {
        Head::Qubit => false,
        Head::Pair(a, b) => is_copied(a) && is_copied(b),
        _ => true,
    }
}

// How many marks may lead a type on a side of another, so that there are values of it where there
// are of the other.
fn marks_beside(random: &mut Random, side: Side, kind: &Kind) -> usize
    ensures { MarksBeside side result kind.now.marks }
{
    match side {
        Side::Below if kind.marks > 0 => 1 + random.below(2),
        Side::Below if is_copied(kind) => random.below(3),
        Side::Above if kind.marks > 0 => random.below(3),
        _ => 0,
    }
}

/// A type on a side of another, with marks drawn from those that it may have, in its parts too.
pub fn beside(
    heap: Global,
    random: &mut Random,
    side: Side,
    kind: &Kind,
) -> Result<Kind, AllocError>
    ensures { IfOk result (λ k. IsBeside side (kind_type k) (kind_type kind.now)) }
{
    let marks = marks_beside(random, side, kind);
    match &kind.head {
        Head::Bit => Ok(Head::Bit.marked(marks)),
        Head::Qubit => Ok(Head::Qubit.marked(marks)),
        Head::Unit => Ok(Head::Unit.marked(marks)),
        Head::Arrow(a, b) => {
            let from = beside(heap, random, side.turned(), a)?;
            Kind::arrow(heap, marks, from, beside(heap, random, side, b)?)
        }
        Head::Pair(a, b) => {
            let left = beside(heap, random, side, a)?;
            Kind::pair(heap, marks, left, beside(heap, random, side, b)?)
        }
    }
}
