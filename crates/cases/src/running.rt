//! Rows of calls of a controller on a tape, on a level and on caps.

use crate::bench::{Call, Reply, Stored, Turn, plays};
use controller::Controller;
use registers::{Cap, Entry, Level, Register, Tape};
use std::alloc::Global;
use std::process::Abort;
use std::test::Fail;

// if 1 then 0 else 1
const BRANCH: Stored = Stored("b", "i 1 0 1");

// (fun x. 0) (new 0)
const DROPPED: Stored = Stored("b>qb>bq", "a l.1 0 a.2 n.4 0");

// meas (H (new 0)), and the same with X
const COIN: Stored = Stored("b>qb>qq>bq", "a m.1 a.2 g.4 a.2 n.7 0");

const FLIP: Stored = Stored("b>qb>qq>bq", "a m.1 a.2 g1.4 a.2 n.7 0");

// new 1
const KEPT: Stored = Stored("q>bq", "a n.1 1.2");

// <new 0, new 1>
const TWO: Stored = Stored("*qq>bqb", "p a.1 n.3 0.6 a.2 n.3 1.6");

// fun x. <x, x>, a value
const COPIES: Stored = Stored("b>!b*bb", "l.1 p.4 v.5 v.6");

const OUTCOMES: [u8; 64] = [1; 64];

// On a tape of capacity 8 with 64 pulses.
#[rattlefmt::skip]
const WORKED: &[Turn] = &[
    Turn(Call::Load(BRANCH), Ok(Reply::Cells(4)), "", 0, 64),
    Turn(Call::Step(1024), Ok(Reply::Cells(1)), "0", 0, 64),
    Turn(Call::Step(1024), Err((35, 1, 0)), "", 0, 64),
    Turn(Call::Collect(1, 1, "b"), Ok(Reply::Counts(1, 1)), "0", 0, 64),
    Turn(Call::Load(DROPPED), Ok(Reply::Cells(6)), "", 0, 64),
    Turn(Call::Step(1024), Ok(Reply::Cells(4)), "a l 0 q", 1, 63),
    Turn(Call::Step(1025), Ok(Reply::Cells(1)), "0", 0, 63),
    Turn(Call::Run(0, 1024), Ok(Reply::Value(0)), "", 0, 63),
    Turn(Call::Collect(1025, 257, "b"), Ok(Reply::Counts(1, 1)), "0", 0, 63),
    Turn(Call::Load(COIN), Ok(Reply::Cells(7)), "", 0, 63),
    Turn(Call::Step(1024), Ok(Reply::Cells(5)), "a m a g q1", 1, 62),
    Turn(Call::Step(1024), Ok(Reply::Cells(3)), "a m q1", 1, 61),
    Turn(Call::Step(1024), Ok(Reply::Cells(1)), "1", 0, 60),
    Turn(Call::Collect(1, 1, "b"), Ok(Reply::Counts(1, 1)), "1", 0, 60),
    Turn(Call::Load(COPIES), Ok(Reply::Cells(4)), "", 0, 60),
    Turn(Call::Step(1024), Err((35, 0, 0)), "", 0, 60),
    Turn(Call::Run(9, 1024), Ok(Reply::Value(0)), "", 0, 60),
    Turn(Call::Collect(4, 5, ""), Err((39, 0, 0)), "", 0, 60),
    Turn(Call::Collect(3, 6, ""), Err((39, 0, 0)), "", 0, 60),
    Turn(Call::Collect(4, 6, ">!b*bb"), Ok(Reply::Counts(4, 6)), "l p v v", 0, 60),
];

// What is refused with nothing loaded, short work tables, a second load, and a collect too early.
#[rattlefmt::skip]
const REFUSED: &[Turn] = &[
    Turn(Call::Step(1024), Err((31, 0, 0)), "", 0, 64),
    Turn(Call::Step(0), Err((31, 0, 0)), "", 0, 64),
    Turn(Call::Run(5, 1024), Err((31, 0, 0)), "", 0, 64),
    Turn(Call::Run(0, 1023), Err((31, 0, 0)), "", 0, 64),
    Turn(Call::Collect(0, 0, ""), Err((31, 0, 0)), "", 0, 64),
    Turn(Call::Collect(9, 9, ""), Err((31, 0, 0)), "", 0, 64),
    Turn(Call::Abandon, Err((31, 0, 0)), "", 0, 64),
    Turn(Call::Load(KEPT), Ok(Reply::Cells(3)), "", 0, 64),
    Turn(Call::Load(KEPT), Err((32, 0, 0)), "", 0, 64),
    Turn(Call::Step(1023), Err((34, 0, 0)), "", 0, 64),
    Turn(Call::Run(5, 1023), Err((34, 0, 0)), "", 0, 64),
    Turn(Call::Run(0, 0), Err((34, 0, 0)), "", 0, 64),
    Turn(Call::Collect(9, 9, ""), Err((38, 0, 0)), "", 0, 64),
    Turn(Call::Collect(0, 0, ""), Err((38, 0, 0)), "", 0, 64),
    Turn(Call::Step(1024), Ok(Reply::Cells(1)), "q", 1, 63),
    Turn(Call::Load(COIN), Err((32, 1, 0)), "", 1, 63),
    Turn(Call::Step(1023), Err((34, 1, 0)), "", 1, 63),
    Turn(Call::Step(1024), Err((35, 1, 0)), "", 1, 63),
    Turn(Call::Run(0, 1023), Err((34, 1, 0)), "", 1, 63),
    Turn(Call::Run(0, 1024), Ok(Reply::Value(0)), "", 1, 63),
    Turn(Call::Collect(0, 9, ""), Err((39, 1, 0)), "", 1, 63),
    Turn(Call::Collect(9, 0, ""), Err((39, 1, 0)), "", 1, 63),
    Turn(Call::Collect(1, 1, "q"), Ok(Reply::Counts(1, 1)), "q", 0, 63),
    Turn(Call::Collect(1, 1, ""), Err((31, 0, 0)), "", 0, 63),
    Turn(Call::Load(KEPT), Ok(Reply::Cells(3)), "", 0, 63),
    Turn(Call::Step(1024), Ok(Reply::Cells(1)), "q1", 1, 62),
    Turn(Call::Abandon, Ok(Reply::Done), "", 0, 62),
    Turn(Call::Abandon, Err((31, 0, 0)), "", 0, 62),
    Turn(Call::Step(1024), Err((31, 0, 0)), "", 0, 62),
    Turn(Call::Run(1, 1024), Err((31, 0, 0)), "", 0, 62),
    Turn(Call::Collect(9, 9, ""), Err((31, 0, 0)), "", 0, 62),
    Turn(Call::Load(BRANCH), Ok(Reply::Cells(4)), "", 0, 62),
    Turn(Call::Step(7), Err((34, 0, 0)), "", 0, 62),
    Turn(Call::Step(1024), Ok(Reply::Cells(1)), "0", 0, 62),
];

// Budgets.
#[rattlefmt::skip]
const RUNS: &[Turn] = &[
    Turn(Call::Load(COIN), Ok(Reply::Cells(7)), "", 0, 64),
    Turn(Call::Run(0, 1024), Ok(Reply::Budget(0)), "", 0, 64),
    Turn(Call::Run(2, 1024), Ok(Reply::Budget(2)), "a m q g q", 1, 62),
    Turn(Call::Run(0, 1024), Ok(Reply::Budget(0)), "", 1, 62),
    Turn(Call::Collect(9, 9, ""), Err((38, 2, 0)), "", 1, 62),
    Turn(Call::Run(1, 1025), Ok(Reply::Value(1)), "1", 0, 61),
    Turn(Call::Run(0, 1024), Ok(Reply::Value(0)), "", 0, 61),
    Turn(Call::Run(7, 1024), Ok(Reply::Value(0)), "", 0, 61),
    Turn(Call::Step(1024), Err((35, 3, 0)), "", 0, 61),
    Turn(Call::Collect(0, 0, ""), Err((39, 3, 0)), "", 0, 61),
    Turn(Call::Collect(1, 1, "b"), Ok(Reply::Counts(1, 1)), "1", 0, 61),
    Turn(Call::Load(TWO), Ok(Reply::Cells(7)), "", 0, 61),
    Turn(Call::Run(1, 1024), Ok(Reply::Budget(1)), "p q1 a n 1", 1, 60),
    Turn(Call::Run(18446744073709551615, 1024), Ok(Reply::Value(1)), "p q1 q2", 2, 59),
    Turn(Call::Collect(3, 3, "*qq"), Ok(Reply::Counts(3, 3)), "p q1 q2", 0, 59),
];

// Calls a controller of a tape of a capacity, with as many pulses as entries.
fn on_tape(
    rt: &impl Abort,
    heap: Global,
    capacity: usize,
    entries: &mut [Entry],
    turns: &[Turn],
) -> Result<(), Fail> {
    plays(
        rt,
        heap,
        &mut Controller::new(Tape::new(capacity, &OUTCOMES, entries)),
        turns,
    )
}

#[test]
fn on_a_tape(rt: HostRuntime) -> Result<(), Fail> {
    on_tape(&rt, rt.alloc(), 8, &mut [Entry::Empty; 64], WORKED)?;
    on_tape(&rt, rt.alloc(), 8, &mut [Entry::Empty; 64], REFUSED)?;
    on_tape(&rt, rt.alloc(), 8, &mut [Entry::Empty; 64], RUNS)?;
    on_tape(&rt, rt.alloc(), 8, &mut [Entry::Empty; 1], SPENT)?;
    on_tape(&rt, rt.alloc(), 1, &mut [Entry::Empty; 1], SPENT)?;
    on_tape(&rt, rt.alloc(), 1, &mut [Entry::Empty; 64], FULL)
}

// On a tape with one pulse, and room for one qubit or more, with the steps since the load in every
// refusal.
#[rattlefmt::skip]
const SPENT: &[Turn] = &[
    Turn(Call::Load(TWO), Ok(Reply::Cells(7)), "", 0, 1),
    Turn(Call::Run(9, 1024), Ok(Reply::Stopped(1, 41, 1, 0)), "p q a n 1", 1, 0),
    Turn(Call::Run(9, 1024), Ok(Reply::Stopped(0, 41, 1, 0)), "", 1, 0),
    Turn(Call::Run(0, 1024), Ok(Reply::Budget(0)), "", 1, 0),
    Turn(Call::Step(1024), Err((41, 1, 0)), "", 1, 0),
    Turn(Call::Step(1023), Err((34, 1, 0)), "", 1, 0),
    Turn(Call::Collect(9, 9, ""), Err((38, 1, 0)), "", 1, 0),
    Turn(Call::Abandon, Ok(Reply::Done), "", 0, 0),
    Turn(Call::Load(KEPT), Ok(Reply::Cells(3)), "", 0, 0),
    Turn(Call::Step(1024), Err((41, 0, 0)), "", 0, 0),
];

// On a tape of capacity 1.
#[rattlefmt::skip]
const FULL: &[Turn] = &[
    Turn(Call::Load(TWO), Ok(Reply::Cells(7)), "", 0, 64),
    Turn(Call::Step(1024), Ok(Reply::Cells(5)), "p q a n 1", 1, 63),
    Turn(Call::Step(1024), Err((42, 1, 0)), "", 1, 63),
    Turn(Call::Step(1023), Err((34, 1, 0)), "", 1, 63),
    Turn(Call::Run(9, 1024), Ok(Reply::Stopped(0, 42, 1, 0)), "", 1, 63),
    Turn(Call::Abandon, Ok(Reply::Done), "", 0, 63),
    Turn(Call::Load(KEPT), Ok(Reply::Cells(3)), "", 0, 63),
    Turn(Call::Run(9, 1024), Ok(Reply::Value(1)), "q", 1, 62),
];

// On a level with 9 pulses.
#[rattlefmt::skip]
const LEVEL: &[Turn] = &[
    Turn(Call::Load(COIN), Err((33, 3, 0)), "", 0, 9),
    Turn(Call::Step(1024), Err((31, 0, 0)), "", 0, 9),
    Turn(Call::Load(FLIP), Ok(Reply::Cells(7)), "", 0, 9),
    Turn(Call::Load(COIN), Err((32, 0, 0)), "", 0, 9),
    Turn(Call::Step(1024), Ok(Reply::Cells(5)), "a m a g1 q1", 1, 8),
    Turn(Call::Load(COIN), Err((32, 1, 0)), "", 1, 8),
    Turn(Call::Run(9, 1024), Ok(Reply::Value(2)), "1 m q1", 0, 6),
    Turn(Call::Collect(1, 1, "b"), Ok(Reply::Counts(1, 1)), "1", 0, 6),
    Turn(Call::Load(COIN), Err((33, 3, 0)), "", 0, 6),
];

// On two caps over a level: the inner cap is full, one layer deep.
#[rattlefmt::skip]
const CAPPED: &[Turn] = &[
    Turn(Call::Load(COIN), Err((33, 3, 0)), "", 0, 2),
    Turn(Call::Load(TWO), Ok(Reply::Cells(7)), "", 0, 2),
    Turn(Call::Run(9, 1024), Ok(Reply::Stopped(1, 42, 1, 1)), "p q a n 1", 1, 1),
    Turn(Call::Step(1024), Err((42, 1, 1)), "", 1, 1),
    Turn(Call::Abandon, Ok(Reply::Done), "", 0, 1),
    Turn(Call::Load(FLIP), Ok(Reply::Cells(7)), "", 0, 1),
    Turn(Call::Run(9, 1024), Ok(Reply::Stopped(1, 41, 1, 2)), "a m a g1 q1", 1, 0),
    Turn(Call::Step(1024), Err((41, 1, 2)), "", 1, 0),
];

#[test]
fn on_other_registers(rt: HostRuntime) -> Result<(), Fail> {
    let heap = rt.alloc();
    let mut level = Level::new(8, 10);
    assert_eq!(rt; level.prepare(true)?, 0);
    plays(&rt, heap, &mut Controller::new(level), LEVEL)?;
    let capped = Cap::new(Cap::new(Level::new(8, 2), 1), 5);
    plays(&rt, heap, &mut Controller::new(capped), CAPPED)
}
