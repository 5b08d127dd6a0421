//! The calls of a register of qubits, with its meaning as ghost members.

ghost use Rattle.std.specs.Prelude.{◌≡◌, ℕ, Bool, false, List, [], Option, MatchResult};
ghost use Rattle.std.specs.Borrow.{GName};
ghost use Rattle.registers.specs.Meaning.{Meaning, Changes, Owed, counted, is_live, after_prepare};
ghost use Rattle.registers.specs.Meaning.{after_gate, after_read, after_let_go, after_clear};
ghost use Rattle.registers.specs.Depth.{depths};
ghost use Rattle.registers.specs.Answers.{prepare_answer, gate_answer, read_answer, let_go_answer};
ghost use Rattle.registers.specs.declared.fault.RegisterReason.{RegisterReason};

use crate::fault::RegisterFault;
use calculus::Gate;

/// A register of qubits. Every call answers by the register's meaning, and changes it as its kind
/// says. A question or a refusal changes nothing.
pub trait Register {
    // What the qubits hold: a type of each kind's own. Each call changes it as the kind says.
    ghost Content: { Type 0 };

    ghost changes: { Changes Content };

    ghost meaning: { Self → Meaning Content };

    // Three answers are each register's own. They are the handle of the next prepare, what a read
    // gives, and the depth that a refusal comes from.
    ghost fresh: { Self → ℕ };

    ghost outcome: { Self → ℕ → Bool };

    // For each reason, the depth of the fault from below that is passed up. It is none where the
    // refusal is the register's own.
    ghost passed_up: { Self → RegisterReason → Option ℕ };

    ghost owed: { (s : Self) → Owed (meaning s) (fresh s) };

    // The tables that it was lent and holds by `&mut`, by their ghost names. No call exchanges
    // them. So the owner of a tape's journal knows what it holds when the tape is gone.
    ghost lent: { Self → List GName } = { λ _. [] };

    /// How many qubits may be live at once, at most 32.
    fn capacity(&self) -> usize
        ensures { result ≡ (meaning self.now).capacity };

    /// Whether the register has the gate.
    fn makes(&self, gate: Gate) -> bool
        ensures { result ≡ (meaning self.now).makes gate };

    /// Whether the handle names a live qubit; from 32 on none does.
    fn is_live(&self, handle: u8) -> bool
        ensures { result ≡ is_live (meaning self.now).live handle };

    /// How many qubits are live.
    fn live_count(&self) -> usize
        ensures { result ≡ counted (meaning self.now).live };

    /// How many pulses are left.
    fn pulses(&self) -> u64
        ensures { result ≡ (meaning self.now).pulses };

    /// Prepares a qubit at the bit and answers its handle, for one pulse.
    fn prepare(&mut self, bit: bool) -> Result<u8, RegisterFault>
        ensures answer { result
            ≡ prepare_answer (meaning self.old) (depths (passed_up self.old)) (fresh self.old) }
        ensures state { MatchResult result
            (λ h. meaning self.new ≡ after_prepare changes (meaning self.old) h bit)
            (λ _. self.new ≡ self.old) }
        ensures lent { lent self.new ≡ lent self.old };

    /// Applies a gate to the qubits, in their order, for one pulse.
    fn gate(&mut self, gate: Gate, on: &[u8]) -> Result<(), RegisterFault>
        ensures answer { result
            ≡ gate_answer (meaning self.old) (depths (passed_up self.old)) gate on.now }
        ensures state { MatchResult result
            (λ _. meaning self.new ≡ after_gate changes (meaning self.old) gate on.now)
            (λ _. self.new ≡ self.old) }
        ensures lent { lent self.new ≡ lent self.old };

    /// Reads a qubit, which stays live, for one pulse.
    fn read(&mut self, handle: u8) -> Result<bool, RegisterFault>
        ensures answer { result
            ≡ read_answer (meaning self.old) (depths (passed_up self.old))
            handle (outcome self.old handle) }
        ensures state { MatchResult result
            (λ b. meaning self.new ≡ after_read changes (meaning self.old) handle b)
            (λ _. self.new ≡ self.old) }
        ensures lent { lent self.new ≡ lent self.old };

    /// Lets go of a qubit, for no pulse.
    fn let_go(&mut self, handle: u8) -> Result<(), RegisterFault>
        ensures answer { result
            ≡ let_go_answer (meaning self.old) (depths (passed_up self.old)) handle }
        ensures state { MatchResult result
            (λ _. meaning self.new ≡ after_let_go changes (meaning self.old) handle)
            (λ _. self.new ≡ self.old) }
        ensures lent { lent self.new ≡ lent self.old };

    /// Lets go of every qubit, for no pulse.
    fn clear(&mut self)
        ensures state { meaning self.new ≡ after_clear changes (meaning self.old) }
        ensures lent { lent self.new ≡ lent self.old };
}
