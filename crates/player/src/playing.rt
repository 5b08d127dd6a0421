//! Plays a row of turns.

ghost use Rattle.std.specs.Prelude.{◌≡◌, [], length, min, take};
ghost use Rattle.checker.specs.Accepting.{program_verdict};
ghost use Rattle.rows.specs.Members.{step, run, collect, abandon};
ghost use Rattle.controller.specs.Calls.{CallKeeps};
ghost use Rattle.controller.specs.Shots.{held, nothing_held};
ghost use Rattle.player.specs.Stages.{stage, load_made, TurnMakes, StepMakes, RunMakes};
ghost use Rattle.player.specs.Stages.{CollectMakes, AbandonMakes};
ghost use Rattle.player.specs.Turns.{rooms, is_refused, LoadPlayed, TurnPlayed};
ghost use Rattle.player.specs.Playing.{RowPlayed};
ghost use Rattle.player.specs.Settled.{RowIsSettled};

use crate::turns::{Done, Reply, Turn};
use calculus::{TermCell, TypeCell};
use checker::check;
use controller::Controller;
use registers::Register;

// Checks a program and loads it.
fn load<R: Register>(
    controller: &mut Controller<R>,
    types: &[TypeCell],
    terms: &[TermCell],
) -> Reply
    ensures reply { (result, stage (held controller.new.shot) controller.new.register [] [] [])
        ≡ load_made R.Register types.now terms.now
        (stage (held controller.old.shot) controller.old.register [] [] [])
        (program_verdict types.now terms.now) }
    ensures kept { LoadPlayed R.Register types.now terms.now controller.old controller.new result }
{
    let program = check(types, terms)?;
    Ok(Done::Loaded(controller.load(&program)?))
}

// One step, with the first cells of the work table.
fn step<R: Register>(controller: &mut Controller<R>, room: usize, work: &mut [TermCell]) -> Reply
    ensures made { StepMakes R.Register room
        (stage (held controller.old.shot) controller.old.register work.old [] [])
        (stage (held controller.new.shot) controller.new.register work.new [] []) result }
    ensures kept { CallKeeps R.Register (step (min room (length work.old)))
        controller.old controller.new (is_refused result) }
{
    let room = room.min(work.len());
    Ok(Done::Stepped(controller.step(&mut work[..room])?))
}

// A run, with the first cells of the work table.
fn run<R: Register>(
    controller: &mut Controller<R>,
    budget: u64,
    room: usize,
    work: &mut [TermCell],
) -> Reply
    ensures made { RunMakes R.Register budget room
        (stage (held controller.old.shot) controller.old.register work.old [] [])
        (stage (held controller.new.shot) controller.new.register work.new [] []) result }
    ensures kept { CallKeeps R.Register (run budget (min room (length work.old)))
        controller.old controller.new (is_refused result) }
{
    let room = room.min(work.len());
    let (steps, stop) = controller.run(budget, &mut work[..room])?;
    Ok(Done::Ran(steps, stop))
}

// Collects into the first cells of both tables.
fn collect<R: Register>(
    controller: &mut Controller<R>,
    room: usize,
    value: &mut [TermCell],
    kind_room: usize,
    kinds: &mut [TypeCell],
) -> Reply
    ensures made { CollectMakes R.Register room kind_room
        (stage (held controller.old.shot) controller.old.register [] value.old kinds.old)
        (stage (held controller.new.shot) controller.new.register [] value.new kinds.new) result }
    ensures kept { CallKeeps R.Register
        (collect (min room (length value.old)) (min kind_room (length kinds.old)))
        controller.old controller.new (is_refused result) }
{
    let room = room.min(value.len());
    let kind_room = kind_room.min(kinds.len());
    let (cells, kind_cells) = controller.collect(&mut value[..room], &mut kinds[..kind_room])?;
    Ok(Done::Collected(cells, kind_cells))
}

fn abandon<R: Register>(controller: &mut Controller<R>) -> Reply
    ensures made { AbandonMakes R.Register
        (stage (held controller.old.shot) controller.old.register [] [] [])
        (stage (held controller.new.shot) controller.new.register [] [] []) result }
    ensures kept { CallKeeps R.Register abandon controller.old controller.new (is_refused result) }
{
    controller.abandon()?;
    Ok(Done::Abandoned)
}

// Plays one turn.
fn play_turn<R: Register>(
    controller: &mut Controller<R>,
    turn: &Turn,
    work: &mut [TermCell],
    value: &mut [TermCell],
    kinds: &mut [TypeCell],
) -> Reply
    ensures made { TurnMakes R.Register turn.now
        (stage (held controller.old.shot) controller.old.register work.old value.old kinds.old)
        (stage (held controller.new.shot) controller.new.register work.new value.new kinds.new)
        result }
    ensures played { TurnPlayed R.Register
        (rooms (length work.old) (length value.old) (length kinds.old)) turn.now
        controller.old controller.new result }
{
    match *turn {
        Turn::Load(types, terms) => load(controller, types, terms),
        Turn::Step(room) => step(controller, room, work),
        Turn::Run(budget, room) => run(controller, budget, room, work),
        Turn::Collect(room, kind_room) => collect(controller, room, value, kind_room, kinds),
        Turn::Abandon => abandon(controller),
    }
}

/// Plays a row on a new controller over a register, turn by turn, as long as there are places for
/// replies. Answers the controller.
pub fn play<R: Register>(
    register: R,
    row: &[Turn],
    work: &mut [TermCell],
    value: &mut [TermCell],
    kinds: &mut [TypeCell],
    replies: &mut [Option<Reply>],
) -> Controller<R>
    ensures played { RowPlayed R.Register
        (stage nothing_held register work.old value.old kinds.old)
        (take (length replies.old) row.now) replies.old replies.new
        (stage (held result.shot) result.register work.new value.new kinds.new) }
    ensures settled { RowIsSettled R.Register
        (stage nothing_held register work.old value.old kinds.old)
        (take (length replies.old) row.now) replies.old replies.new
        (stage (held result.shot) result.register work.new value.new kinds.new) }
{
    let mut controller = Controller::new(register);
    for (i, turn) in row.iter().take(replies.len()).enumerate() {
        replies[i] = Some(play_turn(&mut controller, turn, work, value, kinds));
    }
    controller
}
