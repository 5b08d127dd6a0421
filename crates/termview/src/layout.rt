//! A term's text on lines of a page's width.

ghost use Rattle.std.specs.Prelude.{◌≡◌, ◌<◌, ◌≤◌, ◌++◌, List, ℕ, length, OnOk, string_bytes};
ghost use Rattle.termview.specs.Layout.{Behind, LaidAs, laid_line};

use crate::bytes::{push_blanks, push_bytes};
use std::alloc::AllocError;

// Columns of a line.
const WIDTH: usize = 100;

// Columns by which a term stands in from the left, at least and at most.
const INDENT: usize = 2;

const MOST_INDENT: usize = 40;

// How deep in brackets the text goes on after a byte.
fn nested(depth: usize, byte: u8) -> usize {
    match byte {
        b'(' | b'<' => depth.saturating_add(1),
        b')' | b'>' => depth.saturating_sub(1),
        _ => depth,
    }
}

// How deep in brackets a text ends that begins so deep.
fn nested_after(text: &[u8], depth: usize) -> usize {
    let mut depth = depth;
    for byte in text {
        depth = nested(depth, *byte);
    }
    depth
}

// Whether a new part of the term begins after the blank at this place.
fn parts_begin(text: &[u8], at: usize) -> bool
    requires { at ≤ length text.now }
{
    let before = &text[..at];
    let after = &text[at..];
    before.ends_with(b" in")
        || before.ends_with(b".")
        || after.starts_with(b" then ")
        || after.starts_with(b" else ")
}

// The best place to end a line that has so much room: the last of the blanks that stand least deep,
// rather where a new part begins; the end of the room if there is none.
fn best_break(text: &[u8], room: usize) -> usize
    requires longer { room < length text.now }
    requires some_room { 1 ≤ room }
    ensures some { 1 ≤ result }
    ensures within { result ≤ room }
{
    let mut best = room;
    let mut least = usize::MAX;
    let mut depth = 0;
    for at in 0..room {
        depth = nested(depth, text[at]);
        if text[at] == b' ' && at > room / 3 {
            let inside = usize::from(!parts_begin(text, at));
            let rank = depth.saturating_mul(2).saturating_add(inside);
            if rank <= least {
                best = at;
                least = rank;
            }
        }
    }
    best
}

// The columns from the left of a line that begins so deep in brackets.
fn indent_at(depth: usize) -> usize
    ensures { result ≤ MOST_INDENT }
{
    (2 * INDENT + INDENT * depth.min(WIDTH)).min(MOST_INDENT)
}

// What stands after a blank, or all where there is none.
fn after_blank(text: &[u8]) -> &[u8]
    ensures behind { Behind text.now result.now }
    ensures shorter { length result.now ≤ length text.now }
{
    match text {
        [b' ', after @ ..] => after,
        _ => text,
    }
}

// Appends a line.
fn push_line(out: &mut String, indent: usize, line: &[u8]) -> Result<(), AllocError>
    ensures { OnOk result (string_bytes out.new
        ≡ string_bytes out.old ++ laid_line indent line.now) }
{
    push_blanks(out, indent)?;
    push_bytes(out, line)?;
    out.push_str("\n")
}

/// Appends a text on lines of 100 columns at most.
pub fn push_laid(out: &mut String, text: &[u8]) -> Result<(), AllocError>
    ensures { OnOk result ((laid : List ℕ)
        × ((string_bytes out.new ≡ string_bytes out.old ++ laid) × LaidAs text.now laid)) }
{
    let mut rest = text;
    let mut depth = 0;
    let mut indent = INDENT;
    while rest.len() > WIDTH - indent {
        let end = best_break(rest, WIDTH - indent);
        push_line(out, indent, &rest[..end])?;
        depth = nested_after(&rest[..end], depth);
        rest = after_blank(&rest[end..]);
        indent = indent_at(depth);
    }
    push_line(out, indent, rest)
}
