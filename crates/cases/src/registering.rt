//! The tape, the level and the cap: answers and refusals of each call.

use crate::asking::{Ask, Asked, Told, asks, holds};
use calculus::Gate;
use registers::{Entry, Level, Register, Tape};
use std::process::Abort;
use std::test::Fail;

// A tape of capacity 2 with 7 pulses: 44 before 45 before 46, a missing handle before one given
// twice, 41 before all.
#[rattlefmt::skip]
const TAPE: &[Asked] = &[
    Asked(Ask::Gate(Gate::H, &[0]), Err((45, 0)), 0, 7),
    Asked(Ask::Read(0), Err((45, 0)), 0, 7),
    Asked(Ask::Read(32), Err((45, 0)), 0, 7),
    Asked(Ask::Read(255), Err((45, 0)), 0, 7),
    Asked(Ask::LetGo(0), Err((45, 0)), 0, 7),
    Asked(Ask::LetGo(64), Err((45, 0)), 0, 7),
    Asked(Ask::Gate(Gate::H, &[]), Err((44, 0)), 0, 7),
    Asked(Ask::Gate(Gate::Cnot, &[5]), Err((44, 0)), 0, 7),
    Asked(Ask::Gate(Gate::Cnot, &[5, 5]), Err((45, 0)), 0, 7),
    Asked(Ask::Clear, Ok(Told::Done), 0, 7),
    Asked(Ask::Prepare(true), Ok(Told::Handle(0)), 0b1, 6),
    Asked(Ask::Gate(Gate::Cnot, &[0, 0]), Err((46, 0)), 0b1, 6),
    Asked(Ask::Gate(Gate::Toffoli, &[0, 0, 5]), Err((45, 0)), 0b1, 6),
    Asked(Ask::Gate(Gate::Toffoli, &[0, 0]), Err((44, 0)), 0b1, 6),
    Asked(Ask::Gate(Gate::H, &[0, 0]), Err((44, 0)), 0b1, 6),
    Asked(Ask::Gate(Gate::Cnot, &[0, 255]), Err((45, 0)), 0b1, 6),
    Asked(Ask::Prepare(false), Ok(Told::Handle(1)), 0b11, 5),
    Asked(Ask::Gate(Gate::Toffoli, &[1, 0, 1]), Err((46, 0)), 0b11, 5),
    Asked(Ask::Prepare(true), Err((42, 0)), 0b11, 5),
    Asked(Ask::Gate(Gate::Swap, &[1, 0]), Ok(Told::Done), 0b11, 4),
    Asked(Ask::Read(1), Ok(Told::Bit(true)), 0b11, 3),
    Asked(Ask::LetGo(0), Ok(Told::Done), 0b10, 3),
    Asked(Ask::Prepare(false), Ok(Told::Handle(0)), 0b11, 2),
    Asked(Ask::Gate(Gate::Z, &[0]), Ok(Told::Done), 0b11, 1),
    Asked(Ask::Read(0), Ok(Told::Bit(false)), 0b11, 0),
    Asked(Ask::Prepare(true), Err((41, 0)), 0b11, 0),
    Asked(Ask::Gate(Gate::H, &[0]), Err((41, 0)), 0b11, 0),
    Asked(Ask::Gate(Gate::Cnot, &[]), Err((41, 0)), 0b11, 0),
    Asked(Ask::Gate(Gate::Cnot, &[9, 9]), Err((41, 0)), 0b11, 0),
    Asked(Ask::Gate(Gate::Cnot, &[1, 1]), Err((41, 0)), 0b11, 0),
    Asked(Ask::Read(9), Err((41, 0)), 0b11, 0),
    Asked(Ask::Read(0), Err((41, 0)), 0b11, 0),
    Asked(Ask::LetGo(9), Err((45, 0)), 0b11, 0),
    Asked(Ask::LetGo(0), Ok(Told::Done), 0b10, 0),
    Asked(Ask::Clear, Ok(Told::Done), 0, 0),
    Asked(Ask::Prepare(true), Err((41, 0)), 0, 0),
];

const UNTOUCHED: Entry = Entry::Read {
    handle: 99,
    outcome: true,
};

#[rattlefmt::skip]
const JOURNAL: [Entry; 9] = [
    Entry::Prepare { handle: 0, bit: true },
    Entry::Prepare { handle: 1, bit: false },
    Entry::Gate { gate: Gate::Swap, on: [1, 0, 0] },
    Entry::Read { handle: 1, outcome: true },
    Entry::Prepare { handle: 0, bit: false },
    Entry::Gate { gate: Gate::Z, on: [0, 0, 0] },
    Entry::Read { handle: 0, outcome: false },
    UNTOUCHED,
    UNTOUCHED,
];

// Three pulses, since the journal has no more entries.
#[rattlefmt::skip]
const SHORT: &[Asked] = &[
    Asked(Ask::Prepare(false), Ok(Told::Handle(0)), 0b1, 2),
    Asked(Ask::Read(0), Ok(Told::Bit(true)), 0b1, 1),
    Asked(Ask::Gate(Gate::T, &[0]), Ok(Told::Done), 0b1, 0),
    Asked(Ask::Read(0), Err((41, 0)), 0b1, 0),
];

const OUTCOMES: [u8; 7] = [0, 1, 2, 255, 4, 1, 254];

fn makes_every_gate<R: Register>(rt: &impl Abort, register: &R) {
    for number in 0..8 {
        let makes = Gate::try_from(number).is_ok_and(|gate| register.makes(gate));
        assert!(rt; makes, "{}", number);
    }
}

fn on_tape(
    rt: &impl Abort,
    capacity: usize,
    room: usize,
    entries: &mut [Entry],
    table: &[Asked],
) -> Result<(), Fail> {
    let mut tape = Tape::new(capacity, &OUTCOMES, entries);
    assert_eq!(rt; tape.capacity(), room);
    makes_every_gate(rt, &tape);
    asks(rt, &mut tape, table)
}

#[rattlefmt::skip]
const SHORT_JOURNAL: [Entry; 3] = [
    Entry::Prepare { handle: 0, bit: false },
    Entry::Read { handle: 0, outcome: true },
    Entry::Gate { gate: Gate::T, on: [0, 0, 0] },
];

#[test]
fn tape(rt: HostRuntime) -> Result<(), Fail> {
    let mut entries = [UNTOUCHED; 9];
    on_tape(&rt, 2, 2, &mut entries, TAPE)?;
    assert_eq!(rt; entries, JOURNAL);
    let mut few = [UNTOUCHED; 3];
    on_tape(&rt, 99, 32, &mut few, SHORT)?;
    assert_eq!(rt; few, SHORT_JOURNAL);
    Ok(())
}

// A level of capacity 3 with 8 pulses: 43 before 44, 45 and 46, and 41 before it.
#[rattlefmt::skip]
const LEVEL: &[Asked] = &[
    Asked(Ask::Gate(Gate::H, &[]), Err((43, 0)), 0, 8),
    Asked(Ask::Gate(Gate::T, &[9]), Err((43, 0)), 0, 8),
    Asked(Ask::Gate(Gate::X, &[]), Err((44, 0)), 0, 8),
    Asked(Ask::Gate(Gate::X, &[40]), Err((45, 0)), 0, 8),
    Asked(Ask::Gate(Gate::Swap, &[7, 7]), Err((45, 0)), 0, 8),
    Asked(Ask::Read(0), Err((45, 0)), 0, 8),
    Asked(Ask::LetGo(0), Err((45, 0)), 0, 8),
    Asked(Ask::Prepare(true), Ok(Told::Handle(0)), 0b1, 7),
    Asked(Ask::Gate(Gate::Z, &[0]), Err((43, 0)), 0b1, 7),
    Asked(Ask::Gate(Gate::S, &[0, 0]), Err((43, 0)), 0b1, 7),
    Asked(Ask::Gate(Gate::Swap, &[0, 0]), Err((46, 0)), 0b1, 7),
    Asked(Ask::Gate(Gate::Toffoli, &[0, 0, 1]), Err((45, 0)), 0b1, 7),
    Asked(Ask::Read(0), Ok(Told::Bit(true)), 0b1, 6),
    Asked(Ask::Prepare(false), Ok(Told::Handle(1)), 0b11, 5),
    Asked(Ask::Read(1), Ok(Told::Bit(false)), 0b11, 4),
    Asked(Ask::LetGo(0), Ok(Told::Done), 0b10, 4),
    Asked(Ask::LetGo(0), Err((45, 0)), 0b10, 4),
    Asked(Ask::Prepare(false), Ok(Told::Handle(2)), 0b110, 3),
    Asked(Ask::Prepare(false), Ok(Told::Handle(0)), 0b111, 2),
    Asked(Ask::Prepare(true), Err((42, 0)), 0b111, 2),
    Asked(Ask::Read(0), Ok(Told::Bit(false)), 0b111, 1),
    Asked(Ask::Gate(Gate::X, &[0]), Ok(Told::Done), 0b111, 0),
    Asked(Ask::Gate(Gate::H, &[0]), Err((41, 0)), 0b111, 0),
    Asked(Ask::Gate(Gate::X, &[]), Err((41, 0)), 0b111, 0),
    Asked(Ask::Prepare(true), Err((41, 0)), 0b111, 0),
    Asked(Ask::Read(31), Err((41, 0)), 0b111, 0),
    Asked(Ask::Clear, Ok(Told::Done), 0, 0),
];

// A gate on three bits: for each number that they spell, handle 0 lowest, the number after it.
#[rattlefmt::skip]
const TRUTH: &[(Gate, &[u8], [u8; 8])] = &[
    (Gate::X, &[0], [1, 0, 3, 2, 5, 4, 7, 6]),
    (Gate::X, &[1], [2, 3, 0, 1, 6, 7, 4, 5]),
    (Gate::Cnot, &[0, 1], [0, 3, 2, 1, 4, 7, 6, 5]),
    (Gate::Cnot, &[2, 0], [0, 1, 2, 3, 5, 4, 7, 6]),
    (Gate::Swap, &[0, 2], [0, 4, 2, 6, 1, 5, 3, 7]),
    (Gate::Swap, &[2, 1], [0, 1, 4, 5, 2, 3, 6, 7]),
    (Gate::Toffoli, &[0, 1, 2], [0, 1, 2, 7, 4, 5, 6, 3]),
    (Gate::Toffoli, &[2, 0, 1], [0, 1, 2, 3, 4, 7, 6, 5]),
];

// Prepares the three bits of a number, handle 0 lowest.
fn prepared(rt: &impl Abort, number: usize) -> Result<Level, Fail> {
    let mut level = Level::new(3, 100);
    for place in 0..3u8 {
        assert_eq!(rt; level.prepare((number >> place) & 1 == 1)?, place);
    }
    Ok(level)
}

// Makes a gate on the three bits of a number, and reads the bits of another.
fn maps(rt: &impl Abort, gate: Gate, on: &[u8], input: usize, output: u8) -> Result<(), Fail> {
    let mut level = prepared(rt, input)?;
    assert!(rt; level.makes(gate));
    level.gate(gate, on)?;
    for place in 0..3u8 {
        let due = (output >> place) & 1 == 1;
        let read = (level.read(place)?, level.read(place)?);
        assert_eq!(rt; read, (due, due), "{gate:?} of {input}, read twice");
    }
    holds(rt, &level, 0b111, 90, input)
}

#[test]
fn level(rt: HostRuntime) -> Result<(), Fail> {
    asks(&rt, &mut Level::new(3, 8), LEVEL)?;
    for (gate, on, outputs) in TRUTH {
        for (input, output) in outputs.iter().enumerate() {
            maps(&rt, *gate, *on, input, *output)?;
        }
    }
    let level = Level::new(3, 1);
    assert!(rt; !level.makes(Gate::H) && !level.makes(Gate::Z));
    assert!(rt; !level.makes(Gate::S) && !level.makes(Gate::T));
    Ok(())
}
