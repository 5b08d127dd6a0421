//! A register of one qubit: an example of a register of one's own.

ghost use Rattle.std.specs.Prelude.{◌≡◌, Bool, false};
ghost use Rattle.registers.specs.Depth.{nothing_passed_up};
ghost use Rattle.registers.specs.Handles.{unused};
ghost use Rattle.clients.specs.Qubit.{qubit_makes, qubit_changes, qubit_meaning, qubit_owed};

use calculus::Gate;
use registers::{Register, RegisterFault, RegisterReason};

/// One qubit, of handle 0, that holds a classical bit under the gate X.
#[derive(Drop)]
pub struct OneQubit {
    live: bool,
    bit: bool,
    pulses: u64,
}

impl OneQubit {
    /// The qubit not live, its bit 0.
    pub fn new(pulses: u64) -> OneQubit
        ensures { qubit_meaning result ≡ unused 1 qubit_makes pulses false }
    {
        OneQubit {
            live: false,
            bit: false,
            pulses,
        }
    }
}

impl Register for OneQubit {
    ghost Content = { Bool };

    ghost changes = { qubit_changes };

    ghost meaning = { qubit_meaning };

    ghost fresh = { λ _. 0 };

    ghost outcome = { λ s _. s.bit };

    ghost passed_up = { λ _. nothing_passed_up };

    ghost owed = { qubit_owed };

    fn capacity(&self) -> usize {
        1
    }

    fn makes(&self, gate: Gate) -> bool {
        matches!(gate, Gate::X)
    }

    fn is_live(&self, handle: u8) -> bool {
        handle == 0 && self.live
    }

    fn live_count(&self) -> usize {
        usize::from(self.live)
    }

    fn pulses(&self) -> u64 {
        self.pulses
    }

    fn prepare(&mut self, bit: bool) -> Result<u8, RegisterFault> {
        RegisterReason::NoPulses.refuse_if(self.pulses == 0)?;
        RegisterReason::Full.refuse_if(self.live)?;
        self.live = true;
        self.bit = bit;
        self.pulses -= 1;
        Ok(0)
    }

    fn gate(&mut self, gate: Gate, on: &[u8]) -> Result<(), RegisterFault> {
        RegisterReason::NoPulses.refuse_if(self.pulses == 0)?;
        RegisterReason::GateNotMade.refuse_if(!self.makes(gate))?;
        RegisterReason::WrongCount.refuse_if(on.len() != 1)?;
        RegisterReason::NotLive.refuse_if(!self.is_live(on[0]))?;
        self.bit = !self.bit;
        self.pulses -= 1;
        Ok(())
    }

    fn read(&mut self, handle: u8) -> Result<bool, RegisterFault> {
        RegisterReason::NoPulses.refuse_if(self.pulses == 0)?;
        RegisterReason::NotLive.refuse_if(!self.is_live(handle))?;
        self.pulses -= 1;
        Ok(self.bit)
    }

    fn let_go(&mut self, handle: u8) -> Result<(), RegisterFault> {
        RegisterReason::NotLive.refuse_if(!self.is_live(handle))?;
        self.live = false;
        Ok(())
    }

    fn clear(&mut self) {
        self.live = false;
    }
}
