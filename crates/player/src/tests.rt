//! One row over several registers.

use crate::playing::play;
use crate::turns::{Done, Reply, Turn, TurnFault};
use calculus::{MOST_RUNNING_CELLS, TermCell, TypeCell};
use controller::{ControllerFault, Refusal, Stop};
use registers::{Cap, Entry, Level, Register, Tape};
use verdict::{CheckFault, CheckReason};

fn term(op: char, claim: u16) -> TermCell {
    TermCell {
        op,
        argument: 0,
        claim,
    }
}

fn kind(kind: char) -> TypeCell {
    TypeCell { kind }
}

// A row that loads no term, and then one that prepares a qubit at 1 and reads it.
fn row<'a>(types: &'a [TypeCell], none: &'a [TermCell], terms: &'a [TermCell]) -> [Turn<'a>; 8] {
    [
        Turn::Load(types, none),
        Turn::Load(types, terms),
        Turn::Step(MOST_RUNNING_CELLS - 1),
        Turn::Step(MOST_RUNNING_CELLS),
        Turn::Run(9, usize::MAX),
        Turn::Collect(1, 1),
        Turn::Abandon,
        Turn::Abandon,
    ]
}

// The replies to the row; there is no place for the last.
fn replies<R: Register + Drop>(register: R) -> [Option<Reply>; 7] {
    let mut work = [TermCell::default(); MOST_RUNNING_CELLS];
    let mut value = [TermCell::default(); 4];
    let mut kinds = [TypeCell::default(); 4];
    let types = [
        kind('b'),
        kind('>'),
        kind('q'),
        kind('b'),
        kind('>'),
        kind('b'),
        kind('q'),
    ];
    let terms = [
        term('a', 0),
        term('m', 1),
        term('a', 2),
        term('n', 4),
        term('1', 0),
    ];
    let mut replies = [None; 7];
    let row = row(&types, &[], &terms);
    play(
        register,
        &row,
        &mut work,
        &mut value,
        &mut kinds,
        &mut replies,
    );
    replies
}

const WANTED: [Option<Reply>; 7] = [
    Some(Err(TurnFault::NotAccepted(CheckFault {
        reason: CheckReason::NotWhole,
        cell: 0,
    }))),
    Some(Ok(Done::Loaded(5))),
    Some(Err(TurnFault::Refused(Refusal {
        fault: ControllerFault::ShortTable,
        place: 0,
    }))),
    Some(Ok(Done::Stepped(3))),
    Some(Ok(Done::Ran(1, Stop::Value))),
    Some(Ok(Done::Collected(1, 1))),
    Some(Err(TurnFault::Refused(Refusal {
        fault: ControllerFault::NothingLoaded,
        place: 0,
    }))),
];

#[test]
fn over_a_tape(rt: HostRuntime) {
    let mut journal = [Entry::Empty; 4];
    assert_eq!(rt; replies(Tape::new(8, &[0, 1, 0, 1], &mut journal)), WANTED);
}

#[test]
fn over_a_level(rt: HostRuntime) {
    assert_eq!(rt; replies(Level::new(8, 5)), WANTED);
}

#[test]
fn over_a_cap(rt: HostRuntime) {
    let mut journal = [Entry::Empty; 4];
    assert_eq!(rt;
        replies(Cap::new(Tape::new(8, &[0, 1, 0, 1], &mut journal), 1)),
        WANTED
    );
}

#[test]
fn over_a_cap_over_a_cap(rt: HostRuntime) {
    assert_eq!(rt; replies(Cap::new(Cap::new(Level::new(8, 5), 1), 2)), WANTED);
}
