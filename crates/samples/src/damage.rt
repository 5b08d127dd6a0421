//! Programs with something changed, a cell or the bytes of the text, and running cells of any kind.

use crate::random::Random;
use calculus::{TermCell, TypeCell, op_shape};
use drafts::{Draft, as_claim};
use std::alloc::{AllocError, Global};

// The letters of ops, and of those without parts.
const OPS: [char; 13] = [
    'v', '0', '1', 'm', 'n', 's', 'g', 'l', 'a', 'p', 'd', 'i', 'q',
];

const LEAVES: [char; 8] = ['v', '0', '1', 'm', 'n', 's', 'g', 'q'];

const KINDS: [char; 6] = ['b', 'q', 'u', '!', '>', '*'];

// Bytes that mean something in a stored program, and one that does not.
const BYTES: &[u8] = b"\n\t\r 0123456789QLTMEbqu!>*v01mnsglapdiqx\xc8";

// Changes one term cell: its op, its argument or its claim.
fn change_term(random: &mut Random, draft: &mut Draft) {
    let places = draft.types.len();
    let at = random.below(draft.terms.len());
    let Some(cell) = draft.terms.get_mut(at) else {
        return;
    };
    match random.below(7) {
        0 => cell.op = random.pick(&OPS),
        1 => cell.argument = as_claim(random.below(40)),
        2 => *cell = TermCell {
            op: 'g',
            argument: 8,
            ..*cell
        },
        3 => *cell = TermCell {
            op: 'q',
            argument: as_claim(random.below(34)),
            ..*cell
        },
        4 => cell.claim = as_claim(places.saturating_add(random.below(3))),
        _ => cell.claim = as_claim(random.below(places)),
    }
}

fn change_type(random: &mut Random, draft: &mut Draft) {
    let at = random.below(draft.types.len());
    if let Some(cell) = draft.types.get_mut(at) {
        cell.kind = random.pick(&KINDS);
    }
}

// Drops a cell, or puts another in at its place.
fn shift<T: Copy, F: FnOnce(&mut Random, T) -> T>(
    random: &mut Random,
    cells: &mut Vec<T>,
    another: F,
) -> Result<(), AllocError>
    requires { F.IsAlwaysCallable another }
{
    let at = random.below(cells.len());
    let Some(&cell) = cells.get(at) else {
        return Ok(());
    };
    if random.chance(50) {
        cells.remove(at);
    } else {
        cells.insert(at, another(random, cell))?;
    }
    Ok(())
}

/// Changes one thing in a program's cells.
pub fn damage_cells(random: &mut Random, draft: &mut Draft) -> Result<(), AllocError> {
    match random.below(10) {
        0 => change_type(random, draft),
        1 => shift(
            random,
            &mut draft.types,
            |random, _| TypeCell {
                kind: random.pick(&KINDS),
            },
        )?,
        2 | 3 => shift(random, &mut draft.terms, |_, cell| cell)?,
        _ => change_term(random, draft),
    }
    Ok(())
}

// The text with one line, counted from 0, left out or written twice.
fn repeat_line(
    heap: Global,
    text: &[u8],
    line: usize,
    times: usize,
) -> Result<Vec<u8>, AllocError> {
    let mut all = Vec::new(heap);
    for (at, bytes) in text.split_inclusive(|b| *b == b'\n').enumerate() {
        for _ in 0..if at == line { times } else { 1 } {
            all.extend_from_slice(bytes)?;
        }
    }
    Ok(all)
}

// Puts bytes before the first digit from a place on, or there if none follows, so that a number is
// malformed or another.
fn change_number(heap: Global, random: &mut Random, text: &[u8]) -> Result<Vec<u8>, AllocError> {
    let (skipped, rest) = text.split_at(random.below(text.len()));
    let digit = rest.iter().position(|b| b.is_ascii_digit()).unwrap_or(0);
    let (before, after) = rest.split_at(digit);
    let mores: [&[u8]; 6] = [b"0", b"6553", b"99999", b"\t", b"-", b"1"];
    [skipped, before, random.pick(&mores), after].concat(heap)
}

// One byte changed, left out or put in, or the text cut there.
fn change_byte(heap: Global, random: &mut Random, text: &[u8]) -> Result<Vec<u8>, AllocError> {
    let mut all = Vec::from_slice(heap, text)?;
    let at = random.below(text.len());
    let byte = random.pick(BYTES);
    if at >= all.len() {
        return Ok(all);
    }
    match random.below(5) {
        0 => {
            let _ = all.remove(at);
        }
        1 => all.insert(at, byte)?,
        2 => all.truncate(at),
        _ => all[at] = byte,
    }
    Ok(all)
}

// Another line 1 in place of the four bytes that it is.
fn change_header(heap: Global, random: &mut Random, text: &[u8]) -> Result<Vec<u8>, AllocError> {
    let headers: [&[u8]; 5] = [b"QL\t2", b"QL 1", b"QL\t1\r", b"", b"ql\t1"];
    [random.pick(&headers), text.get(4..).unwrap_or(&[])].concat(heap)
}

/// Changes one thing in a program's text.
pub fn damage_text(heap: Global, random: &mut Random, text: &[u8]) -> Result<Vec<u8>, AllocError> {
    match random.below(10) {
        0 => repeat_line(heap, text, random.below(20), 0),
        1 => repeat_line(heap, text, random.below(20), 2),
        2 => change_header(heap, random, text),
        3 | 4 => change_number(heap, random, text),
        5 => {
            let mut all = Vec::from_slice(heap, text)?;
            all.push(random.pick(BYTES))?;
            Ok(all)
        }
        _ => change_byte(heap, random, text),
    }
}

// A cell with an op, and mostly with an argument that it allows.
fn any_cell(random: &mut Random, op: char, claim: u16) -> TermCell {
    let argument = match op {
        'v' => random.below(4),
        'q' => random.below(32),
        'g' => random.below(8),
        _ => 0,
    };
    let is_wrong = random.chance(1) && random.chance(20);
    let argument = as_claim(if is_wrong {
        argument.saturating_add(30)
    } else {
        argument
    });
    TermCell {
        op,
        argument,
        claim,
    }
}

/// Cells that are mostly one running term, with any ops and arguments.
pub fn any_running(
    heap: Global,
    random: &mut Random,
    most: usize,
) -> Result<Vec<TermCell>, AllocError> {
    let mut cells = Vec::new(heap);
    let mut due: usize = 1;
    for i in 0..most {
        if due == 0 && !random.chance(2) {
            break;
        }
        let is_leaf = due.saturating_add(i) > most / 2;
        let op = if is_leaf {
            random.pick(&LEAVES)
        } else {
            random.pick(&OPS)
        };
        cells.push(any_cell(random, op, as_claim(i)))?;
        let parts = op_shape(op).map_or(0, |shape| shape.parts);
        due = due.saturating_sub(1).saturating_add(parts);
    }
    Ok(cells)
}
