//! A layer that passes every refusal up as from a given depth, as if so many layers lay between.

ghost use Rattle.std.specs.Prelude.{◌≡◌, Some, Ok, Err, MatchResult};
ghost use Rattle.registers.specs.Depth.{deeper};

use calculus::Gate;
use registers::{Register, RegisterFault};

/// A register, and the depth from which its refusals are passed up.
#[derive(Drop)]
pub struct Buried<R> {
    pub below: R,
    pub depth: u16,
}

// A fault from below is one deeper than the given depth.
fn pass_from<T>(depth: u16, answer: Result<T, RegisterFault>) -> Result<T, RegisterFault>
    ensures { MatchResult answer
        (λ x. result ≡ Ok x)
        (λ f. result ≡ Err (record { reason = f.reason; depth = deeper depth })) }
{
    answer.map_err(|fault| RegisterFault {
        depth: depth.saturating_add(1),
        ..fault
    })
}

impl<R: Register> Register for Buried<R> {
    ghost Content = { R.Register.Content };

    ghost changes = { R.Register.changes };

    ghost meaning = { λ s. R.Register.meaning s.below };

    ghost fresh = { λ s. R.Register.fresh s.below };

    ghost outcome = { λ s. R.Register.outcome s.below };

    ghost passed_up = { λ s _. Some s.depth };

    ghost owed = { λ s. R.Register.owed s.below };

    fn capacity(&self) -> usize {
        self.below.capacity()
    }

    fn makes(&self, gate: Gate) -> bool {
        self.below.makes(gate)
    }

    fn is_live(&self, handle: u8) -> bool {
        self.below.is_live(handle)
    }

    fn live_count(&self) -> usize {
        self.below.live_count()
    }

    fn pulses(&self) -> u64 {
        self.below.pulses()
    }

    fn prepare(&mut self, bit: bool) -> Result<u8, RegisterFault> {
        pass_from(self.depth, self.below.prepare(bit))
    }

    fn gate(&mut self, gate: Gate, on: &[u8]) -> Result<(), RegisterFault> {
        pass_from(self.depth, self.below.gate(gate, on))
    }

    fn read(&mut self, handle: u8) -> Result<bool, RegisterFault> {
        pass_from(self.depth, self.below.read(handle))
    }

    fn let_go(&mut self, handle: u8) -> Result<(), RegisterFault> {
        pass_from(self.depth, self.below.let_go(handle))
    }

    fn clear(&mut self) {
        self.below.clear();
    }
}
