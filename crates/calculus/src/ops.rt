//! What each letter stands for: how many parts follow it, and which arguments it allows.

ghost use Rattle.std.specs.Prelude.{◌≡◌, Some};
ghost use Rattle.calculus.specs.Letters.{letter, shape_of, kind_parts_of};
ghost use Rattle.calculus.specs.Letters.{allowed, kind_arity, arity};

use crate::cells::{TermCell, TypeCell};
use trees::Cell;

/// The parts of an op, and how many arguments it allows, from 0 on.
#[derive(Clone, Copy, PartialEq, Eq, Debug, Drop)]
pub struct OpShape {
    pub parts: usize,
    pub arguments: usize,
}

fn shape(parts: usize, arguments: usize) -> Option<OpShape>
    ensures { result ≡ Some (record { parts = parts; arguments = arguments }) }
{
    Some(OpShape { parts, arguments })
}

/// The op letter alone decides the number of parts and the arguments. A letter that is no op has
/// none.
pub fn op_shape(op: char) -> Option<OpShape>
    ensures { result ≡ shape_of (letter op) }
{
    match op {
        'v' => shape(0, 65_536),
        'q' => shape(0, 32),
        'g' => shape(0, 8),
        '0' | '1' | 'm' | 'n' | 's' => shape(0, 1),
        'l' => shape(1, 1),
        'a' | 'p' | 'd' => shape(2, 1),
        'i' => shape(3, 1),
        _ => None,
    }
}

/// The parts of a kind letter; nothing for a letter that is no kind.
pub fn kind_parts(kind: char) -> Option<usize>
    ensures { result ≡ kind_parts_of kind }
{
    match kind {
        'b' | 'q' | 'u' => Some(0),
        '!' => Some(1),
        '>' | '*' => Some(2),
        _ => None,
    }
}

/// Whether a cell has a known op and an argument that the op allows.
pub fn is_allowed(cell: TermCell) -> bool
    ensures { result ≡ allowed cell }
{
    op_shape(cell.op).is_some_and(|shape| (cell.argument as usize) < shape.arguments)
}

impl Cell for TermCell {
    ghost arity = { arity };

    fn parts(&self) -> usize {
        op_shape(self.op).map_or(0, |shape| shape.parts)
    }
}

impl Cell for TypeCell {
    ghost arity = { kind_arity };

    fn parts(&self) -> usize {
        kind_parts(self.kind).unwrap_or(0)
    }
}
