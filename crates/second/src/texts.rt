//! The stored program's text: its lines, their fields, and the cells that they name.

ghost use Rattle.std.specs.Prelude.{◌≡◌, ◌<◌, ◌≤◌, length, OnSome};

use crate::halt::{Fault, Halt, Reason};
use calculus::{MOST_TERM_CELLS, MOST_TYPE_CELLS, TermCell, TypeCell};
use std::alloc::Global;

/// The cells of a stored program.
#[derive(Drop)]
pub struct Stored {
    pub types: Vec<TypeCell>,
    pub terms: Vec<TermCell>,
}

// What the lines so far allow next; the counts are those of the end line.
#[derive(Clone, Copy, Drop)]
enum Section {
    Header,
    Types,
    Terms,
    Ended(u16, u16),
}

// A decimal number of one to five digits, with no leading zero but in `0`, that fits sixteen bits.
fn number(field: &[u8]) -> Option<u16>
    ensures { OnSome result ((0 < length field.now) × (length field.now ≤ 5)) }
{
    match field {
        [b'0'] => Some(0),
        [b'1'..=b'9', rest @ ..] if rest.len() < 5 && rest.iter().all(|b| b.is_ascii_digit()) => {
            str::from_utf8(field).ok()?.parse().ok()
        }
        _ => None,
    }
}

// The one character of a field that is one of the letters.
fn letter(field: &[u8], letters: &[u8]) -> Option<char>
    ensures { OnSome result (length field.now ≡ 1) }
{
    match field {
        [byte] if letters.contains(byte) => Some(*byte as char),
        _ => None,
    }
}

// What the ended lines of a text come to so far.
#[derive(Drop)]
struct Reading {
    stored: Stored,
    section: Section,
    // The number of the last line that ended.
    line: usize,
}

impl Reading {
    // No line yet.
    fn new(heap: Global) -> Reading {
        Reading {
            stored: Stored {
                types: Vec::new(heap),
                terms: Vec::new(heap),
            },
            section: Section::Header,
            line: 0,
        }
    }

    fn header_line(&self, bytes: &[u8]) -> Result<Section, Fault> {
        Reason::Header.refuse_if(bytes != b"QL\t1".as_slice(), self.line)?;
        Ok(Section::Types)
    }

    fn type_line(&mut self, kind: &[u8]) -> Result<Section, Halt> {
        let kind = letter(kind, b"bqu!>*").ok_or(Reason::Line.at(self.line))?;
        Reason::FullTable.refuse_if(self.stored.types.len() >= MOST_TYPE_CELLS, self.line)?;
        self.stored.types.push(TypeCell { kind })?;
        Ok(Section::Types)
    }

    fn term_line(&mut self, op: &[u8], argument: &[u8], claim: &[u8]) -> Result<Section, Halt> {
        let op = letter(op, b"v01mnsglapdiq").ok_or(Reason::Line.at(self.line))?;
        let argument = number(argument).ok_or(Reason::Number.at(self.line))?;
        let claim = number(claim).ok_or(Reason::Number.at(self.line))?;
        Reason::FullTable.refuse_if(self.stored.terms.len() >= MOST_TERM_CELLS, self.line)?;
        self.stored.terms.push(TermCell {
            op,
            argument,
            claim,
        })?;
        Ok(Section::Terms)
    }

    fn end_line(&self, types: &[u8], terms: &[u8]) -> Result<Section, Fault> {
        let types = number(types).ok_or(Reason::Number.at(self.line))?;
        let terms = number(terms).ok_or(Reason::Number.at(self.line))?;
        Ok(Section::Ended(types, terms))
    }

    // A line between the header and the end, by its fields.
    fn record(&mut self, fields: &[&[u8]]) -> Result<Section, Halt> {
        match fields {
            [b"T", kind] if matches!(self.section, Section::Types) => self.type_line(kind),
            [b"M", op, argument, claim] => self.term_line(op, argument, claim),
            [b"E", types, terms] => Ok(self.end_line(types, terms)?),
            _ => Err(Reason::Line.at(self.line).into()),
        }
    }

    // Takes the next line, which ended.
    fn take_line(&mut self, heap: Global, bytes: &[u8]) -> Result<(), Halt> {
        self.line = self.line.saturating_add(1);
        self.section = match self.section {
            Section::Header => self.header_line(bytes)?,
            Section::Types | Section::Terms => {
                let fields = bytes.split(|b| *b == b'\t').collect::<Vec<&[u8]>>(heap)?;
                self.record(&fields)?
            }
            Section::Ended(_, _) => return Err(Reason::Line.at(self.line).into()),
        };
        Ok(())
    }

    // The fault of a last line that does not end: nothing may follow the end line, and before it a
    // line has to end.
    fn unended(&self) -> Fault {
        let line = self.line.saturating_add(1);
        match self.section {
            Section::Ended(_, _) => Reason::Line.at(line),
            _ => Reason::End.at(line),
        }
    }

    // The cells, where the last line is the end line and its counts are theirs.
    fn finish(self) -> Result<Stored, Fault> {
        match self.section {
            Section::Ended(types, terms)
                if types as usize == self.stored.types.len()
                    && terms as usize == self.stored.terms.len() => Ok(self.stored),
            Section::Ended(_, _) => Err(Reason::End.at(self.line)),
            _ => Err(Reason::End.at(self.line.saturating_add(1))),
        }
    }
}

/// The cells of a stored program, or the first fault of its text with the line.
pub fn read(heap: Global, text: &[u8]) -> Result<Stored, Halt> {
    let mut reading = Reading::new(heap);
    for bytes in text.split_inclusive(|b| *b == b'\n') {
        let Some(bytes) = bytes.strip_suffix(b"\n".as_slice()) else {
            return Err(reading.unended().into());
        };
        reading.take_line(heap, bytes)?;
    }
    Ok(reading.finish()?)
}
