//! Caps over caps over a level, and which handle each register answers next.

use crate::asking::{Ask, Asked, Told, asks, holds};
use crate::burying::Buried;
use calculus::Gate;
use registers::{Cap, Entry, Level, Register, Tape};
use std::process::Abort;
use std::test::Fail;

// A level of a capacity under two caps, with so many pulses: the capacity of the whole, how many
// prepares are accepted, and the number and depth of the refusal that follows.
#[derive(Drop)]
struct Layers {
    level: usize,
    inner: usize,
    outer: usize,
    pulses: u64,
    capacity: usize,
    accepted: u64,
    refusal: (u16, u16),
}

#[rattlefmt::skip]
const LAYERS: &[Layers] = &[
    Layers { level: 4, inner: 3, outer: 2, pulses: 50, capacity: 2, accepted: 2, refusal: (42, 0) },
    Layers { level: 4, inner: 2, outer: 3, pulses: 50, capacity: 2, accepted: 2, refusal: (42, 1) },
    Layers { level: 2, inner: 3, outer: 4, pulses: 50, capacity: 2, accepted: 2, refusal: (42, 2) },
    Layers { level: 4, inner: 2, outer: 2, pulses: 50, capacity: 2, accepted: 2, refusal: (42, 0) },
    Layers { level: 2, inner: 2, outer: 2, pulses: 50, capacity: 2, accepted: 2, refusal: (42, 0) },
    Layers { level: 2, inner: 2, outer: 5, pulses: 50, capacity: 2, accepted: 2, refusal: (42, 1) },
    Layers { level: 4, inner: 3, outer: 2, pulses: 2, capacity: 2, accepted: 2, refusal: (41, 2) },
    Layers { level: 4, inner: 3, outer: 2, pulses: 1, capacity: 2, accepted: 1, refusal: (41, 2) },
    Layers { level: 4, inner: 4, outer: 0, pulses: 9, capacity: 0, accepted: 0, refusal: (42, 0) },
    Layers { level: 4, inner: 0, outer: 4, pulses: 9, capacity: 0, accepted: 0, refusal: (42, 1) },
    Layers { level: 0, inner: 4, outer: 4, pulses: 9, capacity: 0, accepted: 0, refusal: (42, 2) },
    Layers { level: 4, inner: 4, outer: 0, pulses: 0, capacity: 0, accepted: 0, refusal: (41, 2) },
    Layers {
        level: 99, inner: 98, outer: 97, pulses: 50, capacity: 32, accepted: 32, refusal: (42, 2),
    },
    Layers {
        level: 32, inner: 33, outer: 32, pulses: 50, capacity: 32, accepted: 32, refusal: (42, 0),
    },
];

// A cap of 2 over a cap of 3 over a level of 4 with 9 pulses: every fault but the cap's own comes
// from two layers below.
#[rattlefmt::skip]
const CAPPED: &[Asked] = &[
    Asked(Ask::Gate(Gate::H, &[9]), Err((43, 2)), 0, 9),
    Asked(Ask::Gate(Gate::X, &[]), Err((44, 2)), 0, 9),
    Asked(Ask::Gate(Gate::Cnot, &[9, 9]), Err((45, 2)), 0, 9),
    Asked(Ask::Read(0), Err((45, 2)), 0, 9),
    Asked(Ask::LetGo(3), Err((45, 2)), 0, 9),
    Asked(Ask::Prepare(true), Ok(Told::Handle(0)), 0b1, 8),
    Asked(Ask::Gate(Gate::Cnot, &[0, 0]), Err((46, 2)), 0b1, 8),
    Asked(Ask::Prepare(false), Ok(Told::Handle(1)), 0b11, 7),
    Asked(Ask::Prepare(false), Err((42, 0)), 0b11, 7),
    Asked(Ask::Gate(Gate::Swap, &[0, 1]), Ok(Told::Done), 0b11, 6),
    Asked(Ask::Read(0), Ok(Told::Bit(false)), 0b11, 5),
    Asked(Ask::Read(1), Ok(Told::Bit(true)), 0b11, 4),
    Asked(Ask::LetGo(0), Ok(Told::Done), 0b10, 4),
    Asked(Ask::Prepare(true), Ok(Told::Handle(2)), 0b110, 3),
    Asked(Ask::Clear, Ok(Told::Done), 0, 3),
    Asked(Ask::Prepare(true), Ok(Told::Handle(3)), 0b1000, 2),
    Asked(Ask::Prepare(true), Ok(Told::Handle(0)), 0b1001, 1),
    Asked(Ask::Read(3), Ok(Told::Bit(true)), 0b1001, 0),
    Asked(Ask::Prepare(true), Err((41, 2)), 0b1001, 0),
    Asked(Ask::Gate(Gate::H, &[]), Err((41, 2)), 0b1001, 0),
    Asked(Ask::Read(9), Err((41, 2)), 0b1001, 0),
    Asked(Ask::LetGo(9), Err((45, 2)), 0b1001, 0),
];

#[test]
fn caps(rt: HostRuntime) -> Result<(), Fail> {
    for (i, case) in LAYERS.iter().enumerate() {
        let level = Level::new(case.level, case.pulses);
        let mut register = Cap::new(Cap::new(level, case.inner), case.outer);
        assert_eq!(rt; register.capacity(), case.capacity, "{}", i);
        for _ in 0..case.accepted {
            register.prepare(true)?;
        }
        let left = case.pulses.saturating_sub(case.accepted);
        let answer = register
            .prepare(true)
            .map_err(|fault| (fault.number(), fault.depth));
        assert_eq!(rt; answer, Err(case.refusal), "{}", i);
        assert_eq!(rt; register.live_count() as u64, case.accepted, "{}", i);
        assert_eq!(rt; register.pulses(), left, "{}", i);
    }
    let mut register = Cap::new(Cap::new(Level::new(4, 9), 3), 2);
    assert!(rt; register.makes(Gate::Toffoli) && !register.makes(Gate::H));
    asks(&rt, &mut register, CAPPED)
}

// The depth below a register that passes everything up, and that of a refusal of a cap over it.
const DEPTHS: &[(u16, u16)] = &[
    (0, 2),
    (1, 3),
    (65_532, 65_534),
    (65_533, 65_535),
    (65_534, 65_535),
    (65_535, 65_535),
];

#[test]
fn depths(rt: HostRuntime) -> Result<(), Fail> {
    for (depth, want) in DEPTHS {
        let below = Buried {
            below: Level::new(4, 0),
            depth: *depth,
        };
        let refused = [
            Asked(Ask::Prepare(true), Err((41, *want)), 0, 0),
            Asked(Ask::Gate(Gate::X, &[0]), Err((41, *want)), 0, 0),
            Asked(Ask::Read(0), Err((41, *want)), 0, 0),
            Asked(Ask::LetGo(0), Err((45, *want)), 0, 0),
        ];
        asks(&rt, &mut Cap::new(below, 4), &refused)?;
    }
    let deep = Buried {
        below: Level::new(4, 9),
        depth: 65_535,
    };
    let own = [Asked(Ask::Prepare(true), Err((42, 0)), 0, 9)];
    asks(&rt, &mut Cap::new(Cap::new(deep, 4), 0), &own)
}

// A register of capacity 3 with 20 pulses.
#[rattlefmt::skip]
const ROUND: &[Asked] = &[
    Asked(Ask::Prepare(false), Ok(Told::Handle(0)), 0b1, 19),
    Asked(Ask::Prepare(false), Ok(Told::Handle(1)), 0b11, 18),
    Asked(Ask::LetGo(0), Ok(Told::Done), 0b10, 18),
    Asked(Ask::Prepare(false), Ok(Told::Handle(2)), 0b110, 17),
    Asked(Ask::Prepare(false), Ok(Told::Handle(0)), 0b111, 16),
    Asked(Ask::LetGo(1), Ok(Told::Done), 0b101, 16),
    Asked(Ask::LetGo(2), Ok(Told::Done), 0b1, 16),
    Asked(Ask::Prepare(false), Ok(Told::Handle(1)), 0b11, 15),
    Asked(Ask::Clear, Ok(Told::Done), 0, 15),
    Asked(Ask::Prepare(false), Ok(Told::Handle(2)), 0b100, 14),
    Asked(Ask::LetGo(2), Ok(Told::Done), 0, 14),
    Asked(Ask::Prepare(false), Ok(Told::Handle(0)), 0b1, 13),
    Asked(Ask::Prepare(false), Ok(Told::Handle(1)), 0b11, 12),
    Asked(Ask::Prepare(false), Ok(Told::Handle(2)), 0b111, 11),
    Asked(Ask::Prepare(false), Err((42, 0)), 0b111, 11),
    Asked(Ask::LetGo(1), Ok(Told::Done), 0b101, 11),
    Asked(Ask::LetGo(0), Ok(Told::Done), 0b100, 11),
    Asked(Ask::Gate(Gate::X, &[9]), Err((45, 0)), 0b100, 11),
    Asked(Ask::Prepare(false), Ok(Told::Handle(0)), 0b101, 10),
    Asked(Ask::LetGo(2), Ok(Told::Done), 0b1, 10),
    Asked(Ask::Prepare(false), Ok(Told::Handle(1)), 0b11, 9),
    Asked(Ask::Prepare(false), Ok(Told::Handle(2)), 0b111, 8),
];

// A register of capacity 32, full, with 8 pulses left.
#[rattlefmt::skip]
const FILLED: &[Asked] = &[
    Asked(Ask::Prepare(true), Err((42, 0)), 0xffff_ffff, 8),
    Asked(Ask::LetGo(31), Ok(Told::Done), 0x7fff_ffff, 8),
    Asked(Ask::LetGo(7), Ok(Told::Done), 0x7fff_ff7f, 8),
    Asked(Ask::Prepare(true), Ok(Told::Handle(7)), 0x7fff_ffff, 7),
    Asked(Ask::Prepare(true), Ok(Told::Handle(31)), 0xffff_ffff, 6),
];

// A register of capacity 0.
const NO_ROOM: &[Asked] = &[Asked(Ask::Prepare(true), Err((42, 0)), 0, 5)];

fn fill<R: Register>(rt: &impl Abort, register: &mut R) -> Result<(), Fail> {
    assert_eq!(rt; register.capacity(), 32);
    for handle in 0..32u8 {
        assert_eq!(rt; register.prepare(false)?, handle);
    }
    asks(rt, register, FILLED)
}

const OUTCOMES: [u8; 40] = [1; 40];

// Asks a tape of a capacity, with as many pulses as entries.
fn on_tape(
    rt: &impl Abort,
    capacity: usize,
    entries: &mut [Entry],
    table: &[Asked],
) -> Result<(), Fail> {
    asks(rt, &mut Tape::new(capacity, &OUTCOMES, entries), table)
}

fn fill_tape(rt: &impl Abort, entries: &mut [Entry]) -> Result<(), Fail> {
    fill(rt, &mut Tape::new(1000, &OUTCOMES, entries))
}

#[test]
fn next_handles(rt: HostRuntime) -> Result<(), Fail> {
    asks(&rt, &mut Level::new(3, 20), ROUND)?;
    on_tape(&rt, 3, &mut [Entry::Empty; 20], ROUND)?;
    fill(&rt, &mut Level::new(33, 40))?;
    fill_tape(&rt, &mut [Entry::Empty; 40])?;
    asks(&rt, &mut Level::new(0, 5), NO_ROOM)?;
    on_tape(&rt, 0, &mut [Entry::Empty; 5], NO_ROOM)?;
    let mut level = Level::new(8, 5);
    assert_eq!(rt; level.prepare(true)?, 0);
    assert_eq!(rt; level.prepare(true)?, 1);
    let mut capped = Cap::new(level, 1);
    holds(&rt, &capped, 0, 3, 0)?;
    assert_eq!(rt; capped.prepare(true)?, 2);
    holds(&rt, &capped, 0b100, 2, 1)
}

// A journal of three entries of which two pulses were made.
#[rattlefmt::skip]
const JOURNAL: &[Entry] = &[
    Entry::Prepare { handle: 0, bit: true },
    Entry::Read { handle: 0, outcome: true },
    Entry::Empty,
];

#[test]
fn journal_below_caps(rt: HostRuntime) -> Result<(), Fail> {
    let mut entries = [Entry::Empty; 3];
    let mut register = Cap::new(Cap::new(Tape::new(4, &OUTCOMES, &mut entries), 3), 2);
    let handle = register.prepare(true)?;
    assert!(rt; register.read(handle)?);
    assert_eq!(rt; register.below().below().journal(), JOURNAL);
    Ok(())
}
