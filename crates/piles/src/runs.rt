//! A run over a tape, over a level, over a cap of a tape, and over two caps of a level.

ghost use Rattle.registers.specs.Telling.{cap_tells, level_tells, tape_tells};
ghost use Rattle.piles.specs.Runs.{RunIs};

use calculus::TermCell;
use controller::{Controller, Refusal, Stop};
use registers::{Cap, Level, Register, Tape};

/// A run over a tape.
pub fn run_on_tape(
    over_tape: &mut Controller<Tape>,
    budget: u64,
    work: &mut [TermCell],
) -> Result<(u64, Stop), Refusal>
    ensures { RunIs ⟦<Tape<'static> as Register>⟧ tape_tells budget
        over_tape.old work.old over_tape.new work.new result }
{
    over_tape.run(budget, work)
}

/// A run over a level.
pub fn run_on_level(
    over_level: &mut Controller<Level>,
    budget: u64,
    work: &mut [TermCell],
) -> Result<(u64, Stop), Refusal>
    ensures { RunIs ⟦<Level as Register>⟧ level_tells budget
        over_level.old work.old over_level.new work.new result }
{
    over_level.run(budget, work)
}

/// A run over a cap of a tape.
pub fn run_on_cap_of_tape(
    over_cap: &mut Controller<Cap<Tape>>,
    budget: u64,
    work: &mut [TermCell],
) -> Result<(u64, Stop), Refusal>
    ensures { RunIs ⟦<Cap<Tape<'static>> as Register>⟧ (cap_tells tape_tells) budget
        over_cap.old work.old over_cap.new work.new result }
{
    over_cap.run(budget, work)
}

/// A run over a cap of a cap of a level.
pub fn run_on_caps_of_level(
    over_caps: &mut Controller<Cap<Cap<Level>>>,
    budget: u64,
    work: &mut [TermCell],
) -> Result<(u64, Stop), Refusal>
    ensures { RunIs ⟦<Cap<Cap<Level>> as Register>⟧ (cap_tells (cap_tells level_tells)) budget
        over_caps.old work.old over_caps.new work.new result }
{
    over_caps.run(budget, work)
}
