//! Sentences on what is wrong with a line that the reader refuses.

use crate::bytes::push_number;
use crate::cells::Cells;
use crate::lines::{Line, line_after};
use reader::{ReadFault, ReadReason};
use std::alloc::AllocError;

// Bytes of a text that is too long for any program.
const LONG: usize = 16_384;

// What is wrong with a line that may not stand where it is.
fn misplaced(line: Line<'_>, number: usize, cells: Cells<'_>) -> &'static str {
    if number > cells.types.len() + cells.terms.len() + 2 {
        "something follows the end line, after which no byte may stand\n"
    } else if line.bytes.is_empty() {
        "the line is empty\n"
    } else if line.bytes.starts_with(b"T\t") && !cells.terms.is_empty() {
        "a T line may not follow an M line\n"
    } else {
        "a line is T and a kind; M, op, argument and claim; or E and two counts; parted by tabs\n\
         kinds are b q u ! > *, and ops are v 0 1 m n s g l a p d i\n"
    }
}

// What is wrong with a line that is not ended.
fn unended(line: Line<'_>, number: usize) -> &'static str {
    if !line.bytes.is_empty() {
        "the last line is not ended: the byte 10 after it is missing\n"
    } else if number == 1 {
        "the text is empty\n"
    } else {
        "the end line is missing: E, a tab, the count of T lines, a tab, that of M lines\n"
    }
}

// Appends what an end line has to count.
fn push_counts(out: &mut String, cells: Cells<'_>) -> Result<(), AllocError> {
    out.push_str("the end line miscounts: the number of T lines is ")?;
    push_number(out, cells.types.len())?;
    out.push_str(", and that of M lines is ")?;
    push_number(out, cells.terms.len())?;
    out.push_str("\n")
}

// Appends what is wrong with a line, by the reason of its refusal.
fn push_reason(
    out: &mut String,
    reason: ReadReason,
    line: Line<'_>,
    number: usize,
    cells: Cells<'_>,
) -> Result<(), AllocError> {
    match reason {
        ReadReason::Header => out.push_str("line 1 is not the header, which is QL, a tab and 1\n"),
        ReadReason::Line => out.push_str(misplaced(line, number, cells)),
        ReadReason::Number => out.push_str(
            "a field is no number: one to five digits, no zero in front, at most 65535\n",
        ),
        ReadReason::Full => out.push_str(
            "there is no room for the cell: at most 256 T lines and 512 M lines may stand\n",
        ),
        ReadReason::End if line.is_ended => push_counts(out, cells),
        ReadReason::End => out.push_str(unended(line, number)),
    }
}

// Appends which bytes a line has that no line of a program has.
fn push_bytes_met(out: &mut String, line: Line<'_>) -> Result<(), AllocError> {
    if line.bytes.contains(&b'\r') {
        out.push_str("the line has a byte 13, as on Windows: tr -d '\\r' takes them away\n")?;
    }
    if line.bytes.contains(&b' ') {
        out.push_str("the line has a blank; tabs part the fields: tr ' ' '\\t' makes tabs\n")?;
    }
    Ok(())
}

/// Appends why the reader refuses a text.
pub fn push_misread(
    out: &mut String,
    text: &[u8],
    cells: Cells<'_>,
    fault: ReadFault,
) -> Result<(), AllocError> {
    let line = line_after(text, fault.line.saturating_sub(1));
    push_reason(out, fault.reason, line, fault.line, cells)?;
    push_bytes_met(out, line)?;
    if text.len() >= LONG {
        out.push_str("no more than 16384 bytes are read, and no program is as long as that\n")?;
    }
    Ok(())
}
