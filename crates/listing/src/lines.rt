//! Writes the listing of a shot.

ghost use Rattle.std.specs.Prelude.{◌≡◌, ◌+◌, ◌≤◌, ◌++◌, [], ◌∷◌, length, map, encode_utf8};
ghost use Rattle.arrayvec.specs.ArrayString.{array_string_len};
ghost use Rattle.listing.specs.Lines.{after_field};
ghost use Rattle.listing.specs.Listing.{before_empty, call, code_of, steps_line, with_dashes};
ghost use Rattle.listing.specs.Listing.{kind_line, op_line, pulse_line, pulse_lines, refusal_line};
ghost use Rattle.listing.specs.Listing.{stop_lines, listing_text};
ghost use Rattle.listing.specs.Writing.{RoomFor, Appends};

use crate::shots::{PULSES, Shot};
use arrayvec::ArrayString;
use calculus::{Gate, MOST_RUNNING_CELLS, MOST_TYPE_CELLS, TermCell, TypeCell};
use controller::Stop;
use itoa::{Buffer, Integer};
use registers::Entry;

/// Bytes that a line has at most, with its end.
pub const LINE_BYTES: usize = "X 65535 18446744073709551615\n".len();

/// Bytes that a blank and a letter take at most.
pub const LETTER_BYTES: usize = " \u{10FFFF}".len();

/// Bytes that a pulse's call takes at most, with the end of its line.
pub const CALL_BYTES: usize = " G 65535 255 255 255\n".len();

/// Lines that a listing has at most: an S line, a T line for each cell of a type, an M line for
/// each cell of a value, a J line for each pulse, and an X line.
pub const MOST_LINES: usize = 1 + MOST_TYPE_CELLS + MOST_RUNNING_CELLS + PULSES + 1;

/// Bytes that a listing has at most.
pub const MOST_LISTING_BYTES: usize = MOST_LINES * LINE_BYTES;

/// The text of a listing.
pub type Listing = ArrayString<MOST_LISTING_BYTES>;

// The code of a stop.
fn stop_code(stop: &Stop) -> u8
    ensures { result ≡ code_of stop.now }
{
    match stop {
        Stop::Value => 0,
        Stop::Budget => 1,
        Stop::Refused { fault: _, steps: _ } => 2,
    }
}

// Appends a blank and a letter.
#[tactic(auto, using(crate::proofs::Room::encoded_short))]
fn push_letter(out: &mut Listing, letter: char)
    requires { array_string_len out.old + LETTER_BYTES ≤ MOST_LISTING_BYTES }
    ensures text { out.new.bytes ≡ out.old.bytes ++ 32 ∷ encode_utf8 letter }
    ensures short { array_string_len out.new ≤ array_string_len out.old + LETTER_BYTES }
{
    out.push(' ');
    out.push(letter);
}

// Appends a blank and a number.
fn push_number<I: Integer>(out: &mut Listing, number: I)
    requires { array_string_len out.old + 1 + I.MAX_STR_LEN ≤ MOST_LISTING_BYTES }
    ensures text { out.new.bytes ≡ out.old.bytes ++ 32 ∷ I.text number }
    ensures short { array_string_len out.new ≤ array_string_len out.old + 1 + I.MAX_STR_LEN }
{
    let mut digits = Buffer::new();
    out.push(' ');
    out.push_str(digits.format(number));
}

// Appends the line of the steps and the stop.
fn push_steps(out: &mut Listing, steps: u64, stop: &Stop)
    requires { RoomFor 1 out.old }
    ensures { Appends out.old out.new (steps_line steps stop.now ∷ []) }
{
    out.push('S');
    push_number(out, steps);
    push_number(out, stop_code(stop));
    out.push('\n');
}

// Appends the line of a cell of a type.
fn push_kind(out: &mut Listing, cell: TypeCell)
    requires { RoomFor 1 out.old }
    ensures { Appends out.old out.new (kind_line cell ∷ []) }
{
    out.push('T');
    push_letter(out, cell.kind);
    out.push('\n');
}

// Appends the lines of a value's type.
fn push_kinds(out: &mut Listing, kinds: &[TypeCell])
    requires { RoomFor (length kinds.now) out.old }
    ensures { Appends out.old out.new (map kind_line kinds.now) }
{
    for cell in kinds {
        push_kind(out, *cell);
    }
}

// Appends the line of a cell of a value.
fn push_op(out: &mut Listing, cell: TermCell)
    requires { RoomFor 1 out.old }
    ensures { Appends out.old out.new (op_line cell ∷ []) }
{
    out.push('M');
    push_letter(out, cell.op);
    push_number(out, cell.argument);
    out.push('\n');
}

// Appends the lines of a value.
fn push_ops(out: &mut Listing, value: &[TermCell])
    requires { RoomFor (length value.now) out.old }
    ensures { Appends out.old out.new (map op_line value.now) }
{
    for cell in value {
        push_op(out, *cell);
    }
}

// Appends a gate's number and handles, and a dash for each handle that it does not take.
fn push_gate(out: &mut Listing, gate: Gate, on: [u8; 3])
    requires { array_string_len out.old + CALL_BYTES ≤ MOST_LISTING_BYTES }
    ensures text { out.new.bytes
        ≡ out.old.bytes ++ after_field (with_dashes (call (Entry.Gate gate on))) }
    ensures short { array_string_len out.new ≤ array_string_len out.old + CALL_BYTES }
{
    let [a, b, c] = on;
    out.push_str(" G");
    push_number(out, u16::from(gate));
    push_number(out, a);
    match gate.operands() {
        1 => out.push_str(" - -\n"),
        2 => {
            push_number(out, b);
            out.push_str(" -\n");
        }
        _ => {
            push_number(out, b);
            push_number(out, c);
            out.push('\n');
        }
    }
}

// Appends what a pulse did, with a dash for each field that its call leaves empty.
fn push_call(out: &mut Listing, entry: Entry)
    requires { array_string_len out.old + CALL_BYTES ≤ MOST_LISTING_BYTES }
    ensures text { out.new.bytes ≡ out.old.bytes ++ after_field (with_dashes (call entry)) }
    ensures short { array_string_len out.new ≤ array_string_len out.old + CALL_BYTES }
{
    match entry {
        Entry::Prepare { handle, bit } => {
            out.push_str(" P");
            push_number(out, handle);
            push_number(out, u8::from(bit));
            out.push_str(" - -\n");
        }
        Entry::Read { handle, outcome } => {
            out.push_str(" R");
            push_number(out, handle);
            push_number(out, u8::from(outcome));
            out.push_str(" - -\n");
        }
        Entry::Gate { gate, on } => push_gate(out, gate, on),
        Entry::Empty => out.push_str(" - - - - -\n"),
    }
}

// Appends the line of a pulse.
fn push_pulse(out: &mut Listing, pulse: u8, entry: Entry)
    requires { RoomFor 1 out.old }
    ensures { Appends out.old out.new (pulse_line pulse entry ∷ []) }
{
    out.push('J');
    push_number(out, pulse);
    push_call(out, entry);
}

// The entries of a journal up to the first that no pulse filled.
fn pulses_made(journal: &[Entry; PULSES]) -> &[Entry]
    ensures pulses { result.now ≡ before_empty journal.now }
    ensures few { length result.now ≤ PULSES }
{
    let made = journal
        .iter()
        .take_while(|entry| !matches!(entry, Entry::Empty))
        .count();
    &journal[..made]
}

// Appends a line for each pulse.
fn push_pulses(out: &mut Listing, pulses: &[Entry])
    requires room { RoomFor (length pulses.now) out.old }
    requires few { length pulses.now ≤ PULSES }
    ensures { Appends out.old out.new (pulse_lines pulses.now) }
{
    for (pulse, entry) in pulses.iter().enumerate() {
        push_pulse(out, pulse as u8, *entry);
    }
}

// Appends the line of a refusal.
fn push_refusal(out: &mut Listing, number: u16, place: u64)
    requires { RoomFor 1 out.old }
    ensures { Appends out.old out.new (refusal_line number place ∷ []) }
{
    out.push('X');
    push_number(out, number);
    push_number(out, place);
    out.push('\n');
}

// Appends the line of a refused step, if a run stopped at one.
fn push_stop(out: &mut Listing, stop: &Stop)
    requires { RoomFor 1 out.old }
    ensures { Appends out.old out.new (stop_lines stop.now) }
{
    match stop {
        Stop::Refused { fault, steps } => push_refusal(out, fault.number(), *steps),
        Stop::Value | Stop::Budget => (),
    }
}

/// The listing of a shot: a line for the steps and the stop, the value with its type, a line for
/// each pulse, and a refusal last.
pub fn listing(shot: &Shot) -> Listing
    ensures { result.bytes ≡ listing_text shot.now }
{
    let mut out = Listing::new();
    match shot {
        Shot::Refused { number, place } => push_refusal(&mut out, *number, *place),
        Shot::Ran {
            steps,
            stop,
            value,
            kinds,
            journal,
        } => {
            push_steps(&mut out, *steps, stop);
            push_kinds(&mut out, kinds.as_slice());
            push_ops(&mut out, value.as_slice());
            push_pulses(&mut out, pulses_made(journal));
            push_stop(&mut out, stop);
        }
    }
    out
}
