//! The gates, in the order of their numbers.

ghost use Rattle.std.specs.Prelude.{◌≡◌};
ghost use Rattle.std.specs.Result.{result_ok};
ghost use Rattle.calculus.specs.Gates.{number_of, operands_of, gate_of};

/// A gate of the register, with its number.
#[derive(Clone, Copy, PartialEq, Eq, Debug, Drop)]
pub enum Gate {
    H = 0,
    X = 1,
    Z = 2,
    S = 3,
    T = 4,
    Cnot = 5,
    Swap = 6,
    Toffoli = 7,
}

impl Gate {
    /// How many qubits the gate takes.
    pub fn operands(self) -> usize
        ensures { result ≡ operands_of self }
    {
        match self {
            Gate::H | Gate::X | Gate::Z | Gate::S | Gate::T => 1,
            Gate::Cnot | Gate::Swap => 2,
            Gate::Toffoli => 3,
        }
    }
}

/// The number by which a `g` cell names a gate.
impl From<Gate> for u16 {
    ghost from_gives = { λ gate number. number ≡ number_of gate };

    fn from(gate: Gate) -> u16 {
        gate as u16
    }
}

// Each gate at the place of its number.
const GATES: [Gate; 8] = [
    Gate::H,
    Gate::X,
    Gate::Z,
    Gate::S,
    Gate::T,
    Gate::Cnot,
    Gate::Swap,
    Gate::Toffoli,
];

/// A number from 8 on, which names no gate.
#[derive(Clone, Copy, PartialEq, Eq, Debug, Drop)]
pub struct UnknownGate;

/// The gate that a `g` cell names by a number.
impl TryFrom<u16> for Gate {
    type Error = UnknownGate;

    ghost try_from_gives = { λ number answer. result_ok answer ≡ gate_of number };

    fn try_from(number: u16) -> Result<Gate, UnknownGate> {
        GATES.get(number as usize).copied().ok_or(UnknownGate)
    }
}
