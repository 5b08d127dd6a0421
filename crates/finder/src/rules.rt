//! The rules of a running term.

/// The rules by which a step is made.
#[derive(Clone, Copy, PartialEq, Eq, Debug, Drop)]
pub enum Rule {
    /// A function gets its argument.
    Function,
    /// A pair is opened by a let.
    Pair,
    /// The condition is 1.
    Then,
    /// The condition is 0.
    Else,
    /// A qubit is prepared.
    Prepare,
    /// A qubit is read.
    Read,
    /// A gate gets its qubits.
    Gates,
}
