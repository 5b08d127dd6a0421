//! A register that answers the outcomes it was handed and writes down what each pulse did.

ghost use Rattle.std.specs.Prelude.{◌≡◌, ◌<◌, [], ◌∷◌, length};
ghost use Rattle.registers.specs.Handles.{next_handle};
ghost use Rattle.registers.specs.Depth.{nothing_passed_up};
ghost use Rattle.registers.specs.Free.{handles_owed};
ghost use Rattle.registers.specs.Journal.{Reel, filled, pulses_left, outcome_next, tape_changes};
ghost use Rattle.registers.specs.Journal.{tape_reel, tape_makes, tape_meaning, new_tape};

use crate::fault::RegisterFault;
use crate::handles::Handles;
use crate::journal::Entry;
use crate::places::operands;
use crate::register::Register;
use calculus::Gate;

/// Outcomes to answer, and a journal to fill: an entry for each pulse.
#[derive(Drop)]
pub struct Tape<'a> {
    handles: Handles,
    outcomes: &'a [u8],
    journal: &'a mut [Entry],
    spent: usize,
}

impl<'a> Tape<'a> {
    /// No live qubit, and as many pulses as the shorter of outcomes and journal. A capacity above
    /// 32 is 32.
    pub fn new(capacity: usize, outcomes: &'a [u8], journal: &'a mut [Entry]) -> Tape<'a>
        ensures meaning { tape_meaning result ≡ new_tape capacity outcomes.now journal.old }
        ensures same_journal { result.journal.ghost_name ≡ journal.entry.ghost_name }
    {
        Tape {
            handles: Handles::new(capacity),
            outcomes,
            journal,
            spent: 0,
        }
    }

    /// The journal as it stands. Entry k says what pulse k did. The entries of pulses to come are
    /// as they were handed.
    pub fn journal(&self) -> &[Entry]
        ensures { result.now ≡ (tape_reel self.now).entries }
    {
        self.journal
    }

    // Writes the entry of the next pulse, which is then spent.
    fn spend(&mut self, entry: Entry)
        requires { self.old.spent < length self.old.journal.now }
        ensures handles { self.new.handles ≡ self.old.handles }
        ensures same_journal { self.new.journal.ghost_name ≡ self.old.journal.ghost_name }
        ensures reel { tape_reel self.new
            ≡ filled (tape_reel self.old) entry self.old.handles.next }
    {
        self.journal[self.spent] = entry;
        self.spent += 1;
    }
}

impl<'a> Register for Tape<'a> {
    ghost Content = { Reel };

    ghost changes = { tape_changes };

    ghost meaning = { tape_meaning };

    ghost fresh = { λ s. next_handle s.handles };

    ghost outcome = { λ s _. outcome_next (tape_reel s) };

    ghost passed_up = { λ _. nothing_passed_up };

    ghost lent = { λ s. s.journal.ghost_name ∷ [] };

    ghost owed = { λ s. handles_owed s.handles tape_makes
        (pulses_left (tape_reel s)) (tape_reel s) };

    fn capacity(&self) -> usize {
        self.handles.capacity()
    }

    fn makes(&self, _gate: Gate) -> bool {
        true
    }

    fn is_live(&self, handle: u8) -> bool {
        self.handles.is_live(handle)
    }

    fn live_count(&self) -> usize {
        self.handles.live_count()
    }

    fn pulses(&self) -> u64 {
        self.outcomes
            .len()
            .min(self.journal.len())
            .saturating_sub(self.spent) as u64
    }

    fn prepare(&mut self, bit: bool) -> Result<u8, RegisterFault> {
        let pulses = self.pulses();
        let handle = self.handles.prepare(pulses)?;
        self.spend(Entry::Prepare { handle, bit });
        Ok(handle)
    }

    fn gate(&mut self, gate: Gate, on: &[u8]) -> Result<(), RegisterFault> {
        self.handles.allow_gate(self.pulses(), true, gate, on)?;
        let on = operands(on);
        self.spend(Entry::Gate { gate, on });
        Ok(())
    }

    fn read(&mut self, handle: u8) -> Result<bool, RegisterFault> {
        self.handles.allow_read(self.pulses(), handle)?;
        let outcome = self.outcomes[self.spent] % 2 == 1;
        self.spend(Entry::Read { handle, outcome });
        Ok(outcome)
    }

    fn let_go(&mut self, handle: u8) -> Result<(), RegisterFault> {
        self.handles.let_go(handle)
    }

    fn clear(&mut self) {
        self.handles.clear();
    }
}
