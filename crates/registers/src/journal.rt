//! What a tape writes down of each pulse.

use calculus::Gate;

/// What a pulse did. The operands of a gate stand in front, 0 after them.
#[derive(Clone, Copy, PartialEq, Eq, Debug, Drop)]
pub enum Entry {
    Empty,
    Prepare { handle: u8, bit: bool },
    Gate { gate: Gate, on: [u8; 3] },
    Read { handle: u8, outcome: bool },
}
