//! A layer that limits how many qubits of the register below are live.

ghost use Rattle.std.specs.Prelude.{◌≡◌};
ghost use Rattle.registers.specs.Meaning.{counted, after_clear};
ghost use Rattle.registers.specs.Depth.{depths};
ghost use Rattle.registers.specs.Layers.{Under, passed_on, capped, cap_changes};
ghost use Rattle.registers.specs.Layers.{cap_passes_up, capped_owed};

use crate::fault::{RegisterFault, RegisterReason};
use crate::register::Register;
use calculus::Gate;

/// A register with a limit on its live qubits.
#[derive(Drop)]
pub struct Cap<R> {
    below: R,
    limit: usize,
}

impl<R: Register> Cap<R> {
    /// Clears the register and puts the limit over it.
    pub fn new(mut below: R, limit: usize) -> Cap<R>
        ensures limit { result.limit ≡ limit }
        ensures below { R.Register.meaning result.below
            ≡ after_clear R.Register.changes (R.Register.meaning below) }
        ensures lent { R.Register.lent result.below ≡ R.Register.lent below }
    {
        below.clear();
        Cap { below, limit }
    }

    /// The register below, for questions.
    pub fn below(&self) -> &R
        ensures { result.now ≡ self.now.below }
    {
        &self.below
    }
}

// A fault from below is one layer deeper.
fn pass_on<T>(answer: Result<T, RegisterFault>) -> Result<T, RegisterFault>
    ensures { result ≡ passed_on answer }
{
    answer.map_err(|fault| RegisterFault {
        depth: fault.depth.saturating_add(1),
        ..fault
    })
}

impl<R: Register> Register for Cap<R> {
    ghost Content = { Under R.Register.Content };

    ghost changes = { cap_changes R.Register.changes };

    ghost meaning = { λ s. capped s.limit (R.Register.meaning s.below) };

    ghost fresh = { λ s. R.Register.fresh s.below };

    ghost outcome = { λ s h. R.Register.outcome s.below h };

    ghost passed_up = { λ s. cap_passes_up s.limit (counted (R.Register.meaning s.below).live)
        (depths (R.Register.passed_up s.below)) };

    ghost lent = { λ s. R.Register.lent s.below };

    ghost owed = { λ s. capped_owed s.limit (R.Register.fresh s.below)
        (R.Register.meaning s.below) (R.Register.owed s.below) };

    fn capacity(&self) -> usize {
        self.below.capacity().min(self.limit)
    }

    fn makes(&self, gate: Gate) -> bool {
        self.below.makes(gate)
    }

    fn is_live(&self, handle: u8) -> bool {
        self.below.is_live(handle)
    }

    fn live_count(&self) -> usize {
        self.below.live_count()
    }

    fn pulses(&self) -> u64 {
        self.below.pulses()
    }

    fn prepare(&mut self, bit: bool) -> Result<u8, RegisterFault> {
        let full = self.below.pulses() > 0 && self.below.live_count() >= self.limit;
        RegisterReason::Full.refuse_if(full)?;
        pass_on(self.below.prepare(bit))
    }

    fn gate(&mut self, gate: Gate, on: &[u8]) -> Result<(), RegisterFault> {
        pass_on(self.below.gate(gate, on))
    }

    fn read(&mut self, handle: u8) -> Result<bool, RegisterFault> {
        pass_on(self.below.read(handle))
    }

    fn let_go(&mut self, handle: u8) -> Result<(), RegisterFault> {
        pass_on(self.below.let_go(handle))
    }

    fn clear(&mut self) {
        self.below.clear();
    }
}
