//! What reading, checking, finding and the next term come to, in numbers.

ghost use Rattle.std.specs.Prelude.{◌≡◌};
ghost use Rattle.checker.specs.Accepting.{program_verdict};
ghost use Rattle.finder.specs.Finding.{answer as find_answer};
ghost use Rattle.reader.specs.Reading.{reading};
ghost use Rattle.numbers.specs.Steps.{stepped, stepped_in};
ghost use Rattle.numbers.specs.Verdicts.{checked, located, rule_at, rule_number, verdict_of};

use crate::answers::{ACCEPTED, Verdict, refused};
use calculus::{TermCell, TypeCell};
use checker::check;
use controller::ControllerFault;
use finder::{Rule, find};
use reader::read;
use stepper::{Answer, next};

/// Reads a stored program to two tables: both counts, or the fault and its line.
pub fn read_verdict(text: &[u8], types: &mut [TypeCell], terms: &mut [TermCell]) -> Verdict
    ensures answer { result ≡ verdict_of (reading text.now types.old terms.old).answer }
    ensures types { types.new ≡ (reading text.now types.old terms.old).types }
    ensures terms { terms.new ≡ (reading text.now types.old terms.old).terms }
{
    match read(text, types, terms) {
        Ok((kinds, ops)) => Verdict {
            type_cells: kinds as u64,
            term_cells: ops as u64,
            ..ACCEPTED
        },
        Err(fault) => Verdict::from(fault),
    }
}

/// Checks a program: nothing, or the fault and its cell.
pub fn check_verdict(types: &[TypeCell], terms: &[TermCell]) -> Verdict
    ensures { result ≡ checked (program_verdict types.now terms.now) }
{
    match check(types, terms) {
        Ok(_) => ACCEPTED,
        Err(fault) => Verdict::from(fault),
    }
}

// The number of a rule, from 1 on.
fn rule_number(rule: Rule) -> u16
    ensures { result ≡ rule_number rule }
{
    match rule {
        Rule::Function => 1,
        Rule::Pair => 2,
        Rule::Then => 3,
        Rule::Else => 4,
        Rule::Prepare => 5,
        Rule::Read => 6,
        Rule::Gates => 7,
    }
}

// The rule that applies, and its cell.
fn rule_at(rule: Rule, at: usize) -> Verdict
    ensures { result ≡ rule_at (rule, at) }
{
    Verdict {
        rule: rule_number(rule),
        place: at as u64,
        ..ACCEPTED
    }
}

/// The rule that applies to a running term and its cell, neither for a value; or the fault and its
/// cell.
pub fn find_verdict(cells: &[TermCell]) -> Verdict
    ensures { result ≡ located (find_answer cells.now) }
{
    match find(cells) {
        Ok(None) => ACCEPTED,
        Ok(Some((rule, at))) => rule_at(rule, at),
        Err(fault) => Verdict::from(fault),
    }
}

/// Makes a step on the cells, with a register's answer, and writes the next term to the front of a
/// table: the rule, its cell and the count of the next term; or 35 at a value, 37 and the rule's
/// cell where there are too many cells, or the finder's fault.
pub fn step_verdict(cells: &[TermCell], answer: Answer, work: &mut [TermCell]) -> Verdict
    ensures answer { result ≡ stepped cells.now answer (find_answer cells.now) }
    ensures table { work.new ≡ stepped_in cells.now answer work.old (find_answer cells.now) }
{
    let (rule, at) = match find(cells) {
        Ok(Some(found)) => found,
        Ok(None) => return refused(ControllerFault::AtValue.number(), 0),
        Err(fault) => return Verdict::from(fault),
    };
    match next(cells, rule, at, answer, work) {
        Some(count) => Verdict {
            term_cells: count as u64,
            ..rule_at(rule, at)
        },
        None => refused(ControllerFault::TooLong.number(), at as u64),
    }
}
