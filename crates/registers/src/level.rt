//! A register of classical bits.

ghost use Rattle.std.specs.Prelude.{◌≡◌, slice_set};
ghost use Rattle.registers.specs.Handles.{next_handle};
ghost use Rattle.registers.specs.Depth.{nothing_passed_up};
ghost use Rattle.registers.specs.Free.{handles_owed};
ghost use Rattle.registers.specs.Bits.{Bits, BitsBecome, flipped, exchanged, bits_gated};
ghost use Rattle.registers.specs.Bits.{level_makes, level_changes, level_bits, level_outcome};
ghost use Rattle.registers.specs.Bits.{level_meaning, new_level};

use crate::fault::RegisterFault;
use crate::handles::Handles;
use crate::places::{holds, operands, put};
use crate::register::Register;
use calculus::{Gate, HANDLES};

/// A bit for each handle, under the gates that permute bits.
#[derive(Drop)]
pub struct Level {
    handles: Handles,
    bits: [bool; HANDLES],
    pulses: u64,
}

impl Level {
    /// No live qubit, every bit 0; a capacity above 32 is 32.
    pub fn new(capacity: usize, pulses: u64) -> Level
        ensures { level_meaning result ≡ new_level capacity pulses }
    {
        Level {
            handles: Handles::new(capacity),
            bits: [false; HANDLES],
            pulses,
        }
    }

    // What a read of a handle answers.
    fn bit(&self, handle: u8) -> bool
        ensures { result ≡ level_outcome self.now handle }
    {
        holds(&self.bits, handle)
    }

    // Puts the bit of a handle.
    fn put_bit(&mut self, handle: u8, bit: bool)
        ensures { BitsBecome self.old self.new (slice_set (level_bits self.old).bits handle bit) }
    {
        put(&mut self.bits, handle, bit);
    }

    // Applies a gate to the bits of its operands.
    fn apply_gate(&mut self, gate: Gate, on: &[u8])
        ensures { BitsBecome self.old self.new (bits_gated (level_bits self.old).bits gate on.now) }
    {
        apply(&mut self.bits, gate, on);
    }
}

// Applies a gate to the bits of its operands.
fn apply(bits: &mut [bool], gate: Gate, on: &[u8])
    ensures { bits.new ≡ bits_gated bits.old gate on.now }
{
    let [first, second, third] = operands(on);
    match gate {
        Gate::X => flip_if(bits, true, first),
        Gate::Cnot => flip_if(bits, holds(bits, first), second),
        Gate::Swap => exchange(bits, first, second),
        Gate::Toffoli => flip_if(bits, holds(bits, first) && holds(bits, second), third),
        Gate::H | Gate::Z | Gate::S | Gate::T => {}
    }
}

fn flip_if(bits: &mut [bool], test: bool, handle: u8)
    ensures { bits.new ≡ flipped bits.old test handle }
{
    if test {
        let bit = holds(bits, handle);
        put(bits, handle, !bit);
    }
}

fn exchange(bits: &mut [bool], one: u8, other: u8)
    ensures { bits.new ≡ exchanged bits.old one other }
{
    let bit = holds(bits, one);
    put(bits, one, holds(bits, other));
    put(bits, other, bit);
}

impl Register for Level {
    ghost Content = { Bits };

    ghost changes = { level_changes };

    ghost meaning = { level_meaning };

    ghost fresh = { λ s. next_handle s.handles };

    ghost outcome = { level_outcome };

    ghost passed_up = { λ _. nothing_passed_up };

    ghost owed = { λ s. handles_owed s.handles level_makes s.pulses (level_bits s) };

    fn capacity(&self) -> usize {
        self.handles.capacity()
    }

    fn makes(&self, gate: Gate) -> bool {
        matches!(gate, Gate::X | Gate::Cnot | Gate::Swap | Gate::Toffoli)
    }

    fn is_live(&self, handle: u8) -> bool {
        self.handles.is_live(handle)
    }

    fn live_count(&self) -> usize {
        self.handles.live_count()
    }

    fn pulses(&self) -> u64 {
        self.pulses
    }

    fn prepare(&mut self, bit: bool) -> Result<u8, RegisterFault> {
        let handle = self.handles.prepare(self.pulses)?;
        self.put_bit(handle, bit);
        self.pulses -= 1;
        Ok(handle)
    }

    fn gate(&mut self, gate: Gate, on: &[u8]) -> Result<(), RegisterFault> {
        self.handles
            .allow_gate(self.pulses, self.makes(gate), gate, on)?;
        self.apply_gate(gate, on);
        self.pulses -= 1;
        Ok(())
    }

    fn read(&mut self, handle: u8) -> Result<bool, RegisterFault> {
        self.handles.allow_read(self.pulses, handle)?;
        self.pulses -= 1;
        Ok(self.bit(handle))
    }

    fn let_go(&mut self, handle: u8) -> Result<(), RegisterFault> {
        self.handles.let_go(handle)?;
        self.put_bit(handle, false);
        Ok(())
    }

    fn clear(&mut self) {
        self.handles.clear();
        self.bits = [false; HANDLES];
    }
}
