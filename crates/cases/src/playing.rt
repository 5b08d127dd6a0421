//! Rows through the player: loads that are refused, a step, and a run of more than 1,000 steps.

use crate::shots::stored;
use calculus::{MOST_RUNNING_CELLS, MOST_TERM_CELLS, MOST_TYPE_CELLS, TermCell, TypeCell};
use controller::{ControllerFault, Refusal, Stop};
use player::{Done, Reply, Turn, TurnFault, play};
use reader::read;
use registers::{Entry, Tape};
use std::test::Fail;
use verdict::{CheckFault, CheckReason};

// The program of examples/budget.ql, 120 cells: g10 (meas (H (new 0))), where each of g1 to g10
// calls the one before it twice. It takes 4,096 steps.
#[rattlefmt::skip]
const DOUBLED: &str = "\
    QL 1/T b/T >/T b/T b/T >/T !/T >/T b/T b/T >/T b/T b/T >/T q/T b/T >/T q/T q/T >/T b/T q/\
    M a 0 0/M l 0 1/\
    M a 0 0/M a 0 1/M l 0 4/M l 0 1/M a 0 0/M v 1 1/M a 0 0/M v 1 1/M v 0 0/M l 0 5/\
    M a 0 0/M a 0 1/M l 0 4/M l 0 1/M a 0 0/M v 1 1/M a 0 0/M v 1 1/M v 0 0/M l 0 5/\
    M a 0 0/M a 0 1/M l 0 4/M l 0 1/M a 0 0/M v 1 1/M a 0 0/M v 1 1/M v 0 0/M l 0 5/\
    M a 0 0/M a 0 1/M l 0 4/M l 0 1/M a 0 0/M v 1 1/M a 0 0/M v 1 1/M v 0 0/M l 0 5/\
    M a 0 0/M a 0 1/M l 0 4/M l 0 1/M a 0 0/M v 1 1/M a 0 0/M v 1 1/M v 0 0/M l 0 5/\
    M a 0 0/M a 0 1/M l 0 4/M l 0 1/M a 0 0/M v 1 1/M a 0 0/M v 1 1/M v 0 0/M l 0 5/\
    M a 0 0/M a 0 1/M l 0 4/M l 0 1/M a 0 0/M v 1 1/M a 0 0/M v 1 1/M v 0 0/M l 0 5/\
    M a 0 0/M a 0 1/M l 0 4/M l 0 1/M a 0 0/M v 1 1/M a 0 0/M v 1 1/M v 0 0/M l 0 5/\
    M a 0 0/M a 0 1/M l 0 4/M l 0 1/M a 0 0/M v 1 1/M a 0 0/M v 1 1/M v 0 0/M l 0 5/\
    M a 0 0/M a 0 1/M l 0 4/M l 0 1/M a 0 0/M v 1 1/M a 0 0/M v 1 1/M v 0 0/M l 0 5/\
    M v 0 0/M v 0 0/M v 0 0/M v 0 0/M v 0 0/M v 0 0/M v 0 0/M v 0 0/M v 0 0/M v 0 0/M v 0 0/\
    M a 0 0/M m 0 12/M a 0 13/M g 0 15/M a 0 13/M n 0 18/M 0 0 0/E 21 120/";

// What is replied to the turns of the row.
const WANTED: [Option<Reply>; 9] = [
    Some(Err(TurnFault::NotAccepted(CheckFault {
        reason: CheckReason::NotWhole,
        cell: 0,
    }))),
    Some(Ok(Done::Loaded(120))),
    Some(Ok(Done::Stepped(118))),
    Some(Err(TurnFault::Refused(Refusal {
        fault: ControllerFault::AlreadyLoaded,
        place: 1,
    }))),
    Some(Ok(Done::Ran(1000, Stop::Budget))),
    Some(Ok(Done::Ran(3095, Stop::Value))),
    Some(Ok(Done::Collected(1, 1))),
    Some(Ok(Done::Loaded(120))),
    Some(Ok(Done::Abandoned)),
];

// A load of no term, two loads of the program with a step between them, two runs, a collect, and a
// load and an abandon of what is loaded then.
fn row<'a>(types: &'a [TypeCell], none: &'a [TermCell], terms: &'a [TermCell]) -> [Turn<'a>; 9] {
    [
        Turn::Load(types, none),
        Turn::Load(types, terms),
        Turn::Step(MOST_RUNNING_CELLS),
        Turn::Load(types, terms),
        Turn::Run(1000, MOST_RUNNING_CELLS),
        Turn::Run(5000, MOST_RUNNING_CELLS),
        Turn::Collect(1, 1),
        Turn::Load(types, terms),
        Turn::Abandon,
    ]
}

#[test]
fn a_long_run(rt: HostRuntime) -> Result<(), Fail> {
    let text = stored(rt.alloc(), DOUBLED)?;
    let mut types = [TypeCell::default(); MOST_TYPE_CELLS];
    let mut terms = [TermCell::default(); MOST_TERM_CELLS];
    let counts = read(text.as_slice(), &mut types, &mut terms);
    assert_eq!(rt; counts, Ok((21, 120)));
    let types = types.get(..21).unwrap_or_default();
    let terms = terms.get(..120).unwrap_or_default();
    let row = row(types, &[], terms);
    let mut work = [TermCell::default(); MOST_RUNNING_CELLS];
    let mut value = [TermCell::default(); 1];
    let mut kinds = [TypeCell::default(); 1];
    let mut journal = [Entry::Empty; 8];
    let mut replies = [None; 9];
    play(
        Tape::new(8, &[0, 1, 1, 0, 0, 0, 0, 0], &mut journal),
        &row,
        &mut work,
        &mut value,
        &mut kinds,
        &mut replies,
    );
    assert_eq!(rt; replies, WANTED);
    assert_eq!(rt; value[0].op, '1');
    assert_eq!(rt; kinds[0].kind, 'b');
    Ok(())
}
