//! One function at several registers.

use crate::one_qubit::OneQubit;
use crate::uses::prepare_and_read;
use registers::{Cap, Entry, Level, Register, Tape};

// What is answered, as the bit or the number of the refusal and its depth.
fn shown<R: Register>(register: &mut R, bit: bool) -> Result<bool, (u16, u16)> {
    prepare_and_read(register, bit).map_err(|fault| (fault.number(), fault.depth))
}

#[test]
fn at_a_level(rt: HostRuntime) {
    let mut level = Level::new(8, 5);
    assert_eq!(rt; shown(&mut level, true), Ok(true));
    assert_eq!(rt; shown(&mut level, false), Ok(false));
    assert_eq!(rt; shown(&mut level, true), Err((41, 0)));
    assert_eq!(rt; level.live_count(), 0);
    assert_eq!(rt; level.pulses(), 0);
}

#[test]
fn at_a_tape(rt: HostRuntime) {
    let outcomes = [1, 0, 0, 7];
    let mut journal = [Entry::Empty; 4];
    let mut tape = Tape::new(8, &outcomes, &mut journal);
    assert_eq!(rt; shown(&mut tape, true), Ok(false));
    assert_eq!(rt; shown(&mut tape, false), Ok(true));
    assert_eq!(rt; shown(&mut tape, true), Err((41, 0)));
    assert_eq!(rt; tape.live_count(), 0);
}

#[test]
fn at_a_cap(rt: HostRuntime) {
    let mut open = Cap::new(Level::new(8, 5), 1);
    assert_eq!(rt; shown(&mut open, true), Ok(true));
    assert_eq!(rt; shown(&mut open, true), Ok(true));
    assert_eq!(rt; shown(&mut open, true), Err((41, 1)));
    let mut shut = Cap::new(Level::new(8, 5), 0);
    assert_eq!(rt; shown(&mut shut, true), Err((42, 0)));
    assert_eq!(rt; shut.pulses(), 5);
}

#[test]
fn at_a_cap_over_a_cap(rt: HostRuntime) {
    let outcomes = [0, 1, 0];
    let mut journal = [Entry::Empty; 3];
    let mut caps = Cap::new(Cap::new(Tape::new(8, &outcomes, &mut journal), 2), 3);
    assert_eq!(rt; shown(&mut caps, false), Ok(true));
    assert_eq!(rt; shown(&mut caps, false), Err((41, 2)));
    assert_eq!(rt; caps.live_count(), 0);
}

#[test]
fn at_one_qubit(rt: HostRuntime) {
    let mut qubit = OneQubit::new(4);
    assert_eq!(rt; shown(&mut qubit, true), Ok(true));
    assert!(rt; qubit.prepare(true).is_ok());
    assert_eq!(rt; shown(&mut qubit, true), Err((42, 0)));
}
