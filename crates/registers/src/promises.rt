//! What holds of every register, and of tapes, levels and caps. Each function stands for a theorem:
//! its contract is the theorem's statement.

ghost use Rattle.registers.specs.Depth.{DepthsAreCounted};
ghost use Rattle.registers.specs.Layers.{CapsMerge};
ghost use Rattle.registers.specs.Next.{NextIsFound};
ghost use Rattle.registers.specs.Pulses.{EachPulseIsWritten};
ghost use Rattle.registers.specs.Put.{LevelReadsWhatWasPut};
ghost use Rattle.registers.specs.Room.{RoomIsKept};
ghost use Rattle.registers.specs.Sheet.{RefusalsAreExact};
ghost use Rattle.registers.specs.Spending.{PulsesAreSpent};
ghost use Rattle.registers.specs.Telling.{SettledBy, CapSettles, tape_tells};
ghost use Rattle.registers.specs.Telling.{level_tells, cap_tells};

use crate::cap::Cap;
use crate::level::Level;
use crate::register::Register;
use crate::tape::Tape;

/// A call is refused exactly if a row of the sheet of refusals holds for it. The row of the lowest
/// number answers.
pub fn refusals_are_exact<R: Register>()
    ensures { RefusalsAreExact R.Register.Content }
{}

/// A register's own refusal is at depth 0, and none is deeper than 65,535. Through n layers a
/// refusal is n deeper, as far as that.
pub fn depths_are_counted()
    ensures { DepthsAreCounted }
{}

/// The live count is within the capacity after a clear, and every accepted call keeps it so.
pub fn room_is_kept<R: Register>()
    ensures { RoomIsKept R.Register }
{}

/// But for the limits that the two hold, a cap over a cap is a cap of the smaller limit.
pub fn caps_merge<R: Register>()
    ensures { CapsMerge R.Register.Content }
{}

/// The handle that a tape or a level answers is the next above the last answered that is not live,
/// going round below the capacity.
pub fn next_is_found()
    ensures { NextIsFound }
{}

/// Whatever a level held and whichever calls it accepts, each handle holds the bit that they put
/// there. A read answers that bit.
pub fn level_reads_what_was_put()
    ensures { LevelReadsWhatWasPut ⟦<Level as Register>⟧ }
{}

/// Each pulse of a tape writes its own entry of the journal, and nothing else touches an entry. A
/// read that is pulse k answers whether outcome k is odd.
pub fn each_pulse_is_written<'a>()
    ensures { EachPulseIsWritten ⟦<Tape<'a> as Register>⟧ }
{}

/// What a tape tells is a function of what it means.
pub fn tape_is_settled<'a>()
    ensures { SettledBy ⟦<Tape<'a> as Register>⟧ tape_tells }
{}

/// What a level tells is a function of what it means.
pub fn level_is_settled()
    ensures { SettledBy ⟦<Level as Register>⟧ level_tells }
{}

/// What a cap tells is a function of what it means, if that is so of the register below.
pub fn cap_is_settled<R: Register>()
    ensures { CapSettles R.Register ⟦<Cap<R> as Register>⟧ cap_tells }
{}

/// Each accepted prepare, gate and read spends one pulse, and no other call spends any.
pub fn pulses_are_spent<R: Register>()
    ensures { PulsesAreSpent R.Register }
{}
