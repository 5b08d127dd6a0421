//! A function over any register, at a level and at a tape: what its promise comes to there.

ghost use Rattle.std.specs.Prelude.{◌≡◌, IfOk};
ghost use Rattle.std.specs.Result.{MatchResult};
ghost use Rattle.clients.specs.Tapes.{read_on_tape};
ghost use Rattle.clients.specs.Uses.{WasRead, NotRead};

use crate::uses::prepare_and_read;
use registers::{Entry, Level, Register, RegisterFault, Tape};

/// Prepares a qubit of a level at the bit, reads it and lets it go: the bit comes back.
pub fn prepare_and_read_on_level(level: &mut Level, bit: bool) -> Result<bool, RegisterFault>
    ensures bit { IfOk result (λ outcome. outcome ≡ bit) }
    ensures answer { MatchResult result
        (WasRead ⟦<Level as Register>⟧ level.old level.new bit)
        (NotRead ⟦<Level as Register>⟧ level.old level.new bit) }
{
    prepare_and_read(level, bit)
}

/// Prepares a qubit at the bit on a new tape over the journal, and reads it. The tape is gone when
/// this returns, and the journal holds what its pulses wrote.
pub fn prepare_and_read_on_tape(
    outcomes: &[u8],
    journal: &mut [Entry],
    bit: bool,
) -> Result<bool, RegisterFault>
    ensures { (result, journal.new) ≡ read_on_tape outcomes.now journal.old bit }
{
    let mut tape = Tape::new(1, outcomes, journal);
    prepare_and_read(&mut tape, bit)
}
