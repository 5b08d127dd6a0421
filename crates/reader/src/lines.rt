//! What a line is, by its letter and its fields.

ghost use Rattle.std.specs.Prelude.{◌≡◌, if◌then◌else◌};
ghost use Rattle.reader.specs.Lines.{header_line, other, said, said_by};
ghost use Rattle.std.specs.Str.{bytes_eq};

use crate::parts::parted;

/// A line, its fields being parts of the text.
#[derive(Clone, Copy)]
pub enum Record<'a> {
    Header,
    Kind(&'a [u8]),
    Term(&'a [u8], &'a [u8], &'a [u8]),
    Counts(&'a [u8], &'a [u8]),
    Other,
}

// The line, if the first field is the letter that it asks for.
#[inline(always)]
fn lettered<'a>(field: &[u8], letter: &[u8], line: Record<'a>) -> Record<'a>
    ensures { said_by result
        ≡ (if bytes_eq field.now letter.now then said_by line.entry else other) }
{
    if field == letter { line } else { Record::Other }
}

// Whether a line is the header.
#[inline(always)]
fn is_header(line: &[u8]) -> bool
    ensures { result ≡ bytes_eq line.now header_line }
{
    line == b"QL\t1".as_slice()
}

/// The record that a line is.
#[inline(always)]
pub fn record_of(line: &[u8]) -> Record<'_>
    ensures { said_by result ≡ said line.now }
{
    if is_header(line) {
        return Record::Header;
    }
    let Some((letter, rest)) = parted(line, b'\t') else {
        return Record::Other;
    };
    let Some((first, rest)) = parted(rest, b'\t') else {
        return lettered(letter, b"T", Record::Kind(rest));
    };
    let Some((second, rest)) = parted(rest, b'\t') else {
        return lettered(letter, b"E", Record::Counts(first, rest));
    };
    match parted(rest, b'\t') {
        None => lettered(letter, b"M", Record::Term(first, second, rest)),
        Some(_) => Record::Other,
    }
}
