//! The live handles of a register that is no layer, and which handle is answered next.

ghost use Rattle.std.specs.Prelude.{◌≡◌, ◌+◌, ◌≤◌, true, false, length, take, MatchResult};
ghost use Rattle.registers.specs.Meaning.{counted, is_live, none_live};
ghost use Rattle.registers.specs.Answers.{prepare_answer, gate_answer};
ghost use Rattle.registers.specs.Answers.{read_allowed, let_go_answer, all_live};
ghost use Rattle.registers.specs.Handles.{places, room, Marked, next_handle, bare, at_top};

use crate::fault::{RegisterFault, RegisterReason};
use crate::places::{are_distinct, count, first_free, free_from, holds, put};
use calculus::{Gate, HANDLES};

/// Which handles are live, how many may be, and where the search for the next one begins.
#[derive(Drop)]
pub struct Handles {
    live: [bool; HANDLES],
    capacity: usize,
    next: usize,
}

impl Handles {
    /// No live handle; a capacity above 32 is 32.
    pub fn new(capacity: usize) -> Handles
        ensures { result ≡ record { live = none_live; capacity = capacity; next = 0 } }
    {
        Handles {
            live: [false; HANDLES],
            capacity,
            next: 0,
        }
    }

    /// How many handles may be live.
    pub fn capacity(&self) -> usize
        ensures { result ≡ room self.now }
    {
        self.capacity.min(HANDLES)
    }

    /// Whether a handle is live.
    pub fn is_live(&self, handle: u8) -> bool
        ensures { result ≡ is_live (places self.now.live) handle }
    {
        holds(&self.live, handle)
    }

    /// How many handles are live.
    pub fn live_count(&self) -> usize
        ensures { result ≡ counted (places self.now.live) }
    {
        count(&self.live)
    }

    // Whether every handle of a list is live.
    fn are_live(&self, on: &[u8]) -> bool
        ensures { result ≡ all_live (places self.now.live) on.now }
    {
        on.iter().all(|handle| self.is_live(*handle))
    }

    // The places of the handles below the capacity.
    fn below(&self) -> &[bool]
        ensures these { result.now ≡ take (room self.now) (places self.now.live) }
        ensures short { length result.now ≤ 32 }
    {
        &self.live[..self.capacity()]
    }

    // The next handle above the last answered that is not live, going round below the capacity.
    fn next_handle(&self) -> u8
        ensures { result ≡ next_handle self.now }
    {
        let below = self.below();
        free_from(below, self.next)
            .or_else(|| first_free(below))
            .unwrap_or(below.len()) as u8
    }

    // Makes a handle live, or takes it out.
    fn mark(&mut self, handle: u8, live: bool)
        ensures { Marked self.old self.new handle live self.old.next }
    {
        put(&mut self.live, handle, live);
    }

    /// Makes the next handle live and answers it, if a pulse is left and there is room.
    pub fn prepare(&mut self, pulses: u64) -> Result<u8, RegisterFault>
        ensures answer { result
            ≡ prepare_answer (bare self.old (λ _. true) pulses) at_top (next_handle self.old) }
        ensures state { MatchResult result
            (λ h. Marked self.old self.new h true (h + 1))
            (λ _. self.new ≡ self.old) }
    {
        RegisterReason::NoPulses.refuse_if(pulses == 0)?;
        RegisterReason::Full.refuse_if(self.live_count() >= self.capacity())?;
        let handle = self.next_handle();
        self.mark(handle, true);
        self.next = handle as usize + 1;
        Ok(handle)
    }

    /// Whether a gate may be applied, made or not, to the handles.
    pub fn allow_gate(
        &self,
        pulses: u64,
        made: bool,
        gate: Gate,
        on: &[u8],
    ) -> Result<(), RegisterFault>
        ensures { result ≡ gate_answer (bare self.now (λ _. made) pulses) at_top gate on.now }
    {
        RegisterReason::NoPulses.refuse_if(pulses == 0)?;
        RegisterReason::GateNotMade.refuse_if(!made)?;
        RegisterReason::WrongCount.refuse_if(on.len() != gate.operands())?;
        RegisterReason::NotLive.refuse_if(!self.are_live(on))?;
        RegisterReason::GivenTwice.refuse_if(!are_distinct(on))
    }

    /// Whether a handle may be read.
    pub fn allow_read(&self, pulses: u64, handle: u8) -> Result<(), RegisterFault>
        ensures { result ≡ read_allowed (bare self.now (λ _. true) pulses) at_top handle }
    {
        RegisterReason::NoPulses.refuse_if(pulses == 0)?;
        RegisterReason::NotLive.refuse_if(!self.is_live(handle))
    }

    /// Takes a live handle out.
    pub fn let_go(&mut self, handle: u8) -> Result<(), RegisterFault>
        ensures answer { result ≡ let_go_answer (bare self.old (λ _. true) 0) at_top handle }
        ensures state { MatchResult result
            (λ _. Marked self.old self.new handle false self.old.next)
            (λ _. self.new ≡ self.old) }
    {
        RegisterReason::NotLive.refuse_if(!self.is_live(handle))?;
        self.mark(handle, false);
        Ok(())
    }

    /// Takes every handle out; the search for the next one goes on where it was.
    pub fn clear(&mut self)
        ensures { self.new
            ≡ record { live = none_live; capacity = self.old.capacity; next = self.old.next } }
    {
        self.live = [false; HANDLES];
    }
}
