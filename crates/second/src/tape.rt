//! The tape's register as the second interpreter knows it: eight qubits, sixty-four pulses, and the
//! parity of a pulse's number as its outcome.

ghost use Rattle.std.specs.Prelude.{◌≡◌, ◌<◌, [], ◌∷◌, ◌++◌, IfSome, IfOk, OnOk};
ghost use Rattle.second.specs.Tapes.{RefusesSpent};
ghost use Rattle.second.specs.declared.tape.Pulse.TheVariants.{Prepare, Gate, Read};

use crate::halt::{Halt, Reason};
use std::alloc::Global;
use std::collections::BTreeSet;

/// How many qubits may be live at once.
pub const CAPACITY: u16 = 8;

/// How many pulses there are.
pub const PULSES: usize = 64;

/// The handles that a gate works on.
#[derive(Clone, Copy, Drop)]
pub enum Operands {
    One(u16),
    Two(u16, u16),
    Three(u16, u16, u16),
}

/// What one pulse did: a preparation with its bit, a gate of a number with its operands, or a read
/// with its outcome.
#[derive(Clone, Copy, Drop)]
pub enum Pulse {
    Prepare(u16, bool),
    Gate(u16, Operands),
    Read(u16, bool),
}

/// The live qubits, the last handle answered, and the pulses so far.
#[derive(Drop)]
pub struct Tape {
    live: BTreeSet<u16>,
    last: u16,
    pub journal: Vec<Pulse>,
}

impl Tape {
    /// A new tape: its first handle is 0.
    pub fn new(heap: Global) -> Tape {
        Tape {
            live: BTreeSet::new(heap),
            last: CAPACITY - 1,
            journal: Vec::new(heap),
        }
    }

    fn is_live(&self, handle: u16) -> bool {
        self.live.contains(&handle)
    }

    fn test_pulses(&self) -> Result<(), Halt>
        ensures { RefusesSpent self.now result }
    {
        Ok(Reason::NoPulses.refuse_if(self.journal.len() >= PULSES, 0)?)
    }

    // The next handle that is not live, going round from the last answered.
    fn next_free(&self) -> Option<u16>
        ensures { IfSome result (λ handle. handle < 8) }
    {
        (1..=CAPACITY)
            .map(|further| (self.last % CAPACITY + further) % CAPACITY)
            .find(|handle| !self.live.contains(handle))
    }

    /// Prepares a qubit and answers its handle.
    pub fn prepare(&mut self, value: bool) -> Result<u16, Halt>
        ensures limit { RefusesSpent self.old result }
        ensures pulse { IfOk result (λ handle. self.new.journal.items
            ≡ self.old.journal.items ++ (Prepare handle value ∷ [])) }
    {
        self.test_pulses()?;
        let handle = self.next_free().ok_or(Reason::Full.at(0))?;
        self.journal.push(Pulse::Prepare(handle, value))?;
        self.live.insert(handle)?;
        self.last = handle;
        Ok(handle)
    }

    /// Reads a qubit, which stays live.
    pub fn read(&mut self, handle: u16) -> Result<bool, Halt>
        ensures limit { RefusesSpent self.old result }
        ensures pulse { IfOk result (λ outcome. self.new.journal.items
            ≡ self.old.journal.items ++ (Read handle outcome ∷ [])) }
    {
        self.test_pulses()?;
        Reason::NotLive.refuse_if(!self.is_live(handle), 0)?;
        let outcome = self.journal.len() % 2 == 1;
        self.journal.push(Pulse::Read(handle, outcome))?;
        Ok(outcome)
    }

    /// Does a gate on live qubits, no two of them the same.
    pub fn gate(&mut self, gate: u16, on: Operands) -> Result<(), Halt>
        ensures limit { RefusesSpent self.old result }
        ensures pulse { OnOk result (self.new.journal.items
            ≡ self.old.journal.items ++ (Gate gate on ∷ [])) }
    {
        self.test_pulses()?;
        let (are_live, are_distinct) = match on {
            Operands::One(a) => (self.is_live(a), true),
            Operands::Two(a, b) => (self.is_live(a) && self.is_live(b), a != b),
            Operands::Three(a, b, c) => (
                self.is_live(a) && self.is_live(b) && self.is_live(c),
                a != b && a != c && b != c,
            ),
        };
        Reason::NotLive.refuse_if(!are_live, 0)?;
        Reason::GivenTwice.refuse_if(!are_distinct, 0)?;
        self.journal.push(Pulse::Gate(gate, on))?;
        Ok(())
    }

    /// Lets go the live qubits that a test names.
    pub(crate) fn let_go<F: Fn(u16) -> bool>(&mut self, is_gone: F)
        requires { F.IsAlwaysCallable is_gone }
    {
        self.live.retain(|handle| !is_gone(*handle));
    }
}
