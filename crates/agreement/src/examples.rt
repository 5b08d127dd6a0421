//! Example programs from standard input, each after a line with its name and length.

ghost use Rattle.std.specs.Prelude.{◌<◌, ◌≤◌, length, IfSome};

use crate::compare::{compare_shots, shown};
use std::io;
use tally::Tally;

// The name and the length of an example, from the line before it.
fn heading(line: &str) -> Option<(&str, usize)> {
    let mut fields = line.split(' ');
    match (fields.next()?, fields.next()?, fields.next()?.parse().ok()?) {
        ("@", name, length) => Some((name, length)),
        _ => None,
    }
}

// The line that a text starts with, and what follows from its end on, if there is text.
fn first_line(text: &[u8]) -> Option<(&[u8], &[u8])>
    ensures { IfSome result (λ parts. length parts.1.now ≤ length text.now) }
{
    if text.is_empty() {
        return None;
    }
    let end = text.iter().position(|b| *b == b'\n').unwrap_or(text.len());
    Some(text.split_at(end))
}

// The program of so many bytes behind the byte that ends a line, and what follows it, where so much
// is there.
fn program(after: &[u8], size: usize) -> Option<(&[u8], &[u8])>
    ensures { IfSome result (λ parts. length parts.1.now < length after.now) }
{
    after.get(1..)?.split_at_checked(size)
}

// Compares the two interpreters on one example.
fn compare_example(tally: &mut Tally, name: &str, program: &[u8]) -> io::Result<()> {
    if compare_shots(tally, program)? {
        println!(tally.rt; "example {name} agreed")
    } else {
        println!(tally.rt; "example {name} differs")
    }
}

/// Compares the two interpreters on each example of the input.
pub fn compare_examples(tally: &mut Tally, input: &[u8]) -> io::Result<()> {
    let mut rest = input;
    while let Some((line, after)) = first_line(rest) {
        let line = shown(tally.heap(), line)?;
        let Some((name, size)) = heading(line.as_str()) else {
            return Ok(());
        };
        let Some((program, next)) = program(after, size) else {
            tally.differ();
            return println!(tally.rt; "example {name} is cut short");
        };
        compare_example(tally, name, program)?;
        rest = next;
    }
    Ok(())
}
