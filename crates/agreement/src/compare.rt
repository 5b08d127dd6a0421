//! The comparisons: of whole shots, of checks, and of finders.

ghost use Rattle.std.specs.Prelude.{◌≡◌, take};
ghost use Rattle.agreement.specs.Rules.{renamed_rule};

use calculus::TermCell;
use checker::check;
use drafts::Draft;
use finder::{Rule, find};
use listing::{MOST_BYTES, listing, play_text};
use second::{SecondRule, second_check, second_find, second_shot};
use std::alloc::{AllocError, Global};
use std::io;
use tally::{Outcome, Tally};

// The part of a text that is read.
fn seen(text: &[u8]) -> &[u8]
    ensures { result.now ≡ take 16384 text.now }
{
    &text[..MOST_BYTES.min(text.len())]
}

/// A text's bytes, each as a character.
pub fn shown(heap: Global, text: &[u8]) -> Result<String, AllocError> {
    text.iter().map(|b| *b as char).collect(heap)
}

/// Compares the shots of a stored program; a difference is printed whole.
pub fn compare_shots(tally: &mut Tally, text: &[u8]) -> io::Result<bool> {
    let heap = tally.heap();
    let text = seen(text);
    let shot = play_text(text);
    let first = listing(&shot);
    let second = second_shot(heap, text)?;
    if tally.compare(first.as_str() == second.as_str(), Outcome::from(&shot))? {
        return Ok(true);
    }
    let program = shown(heap, text)?;
    println!(tally.rt; "difference in the shots of\n{program}\nfirst\n{first}second\n{second}")?;
    Ok(false)
}

/// Compares the checks of a program's cells.
pub fn compare_checks(tally: &mut Tally, draft: &Draft) -> io::Result<()> {
    let first = check(&draft.types, &draft.terms)
        .map(|_| ())
        .map_err(|fault| (fault.number(), fault.cell));
    let second = second_check(tally.heap(), &draft.types, &draft.terms)?;
    let outcome = match first {
        Ok(()) => Outcome::CheckAccepted,
        Err((number, _)) => Outcome::CheckRefused(number),
    };
    if tally.compare(first == second, outcome)? {
        return Ok(());
    }
    let program = draft.text()?;
    println!(tally.rt; "difference in the checks of\n{program}first {first:?}\nsecond {second:?}")
}

// The second interpreter's name of a rule.
fn renamed(rule: Rule) -> SecondRule
    ensures { result ≡ renamed_rule rule }
{
    match rule {
        Rule::Function => SecondRule::Function,
        Rule::Pair => SecondRule::Pair,
        Rule::Then => SecondRule::Then,
        Rule::Else => SecondRule::Else,
        Rule::Prepare => SecondRule::Prepare,
        Rule::Read => SecondRule::Read,
        Rule::Gates => SecondRule::Gates,
    }
}

/// Compares where the next step of any cells is.
pub fn compare_finds(tally: &mut Tally, cells: &[TermCell]) -> io::Result<()> {
    let first = find(cells)
        .map(|found| found.map(|(rule, cell)| (renamed(rule), cell)))
        .map_err(|fault| (fault.number(), fault.cell));
    let second = second_find(tally.heap(), cells)?;
    let outcome = match first {
        Ok(None) => Outcome::FindValue,
        Ok(Some(_)) => Outcome::FindRule,
        Err((number, _)) => Outcome::FindRefused(number),
    };
    if tally.compare(first == second, outcome)? {
        return Ok(());
    }
    println!(tally.rt; "difference in the finds of\n{cells:?}\nfirst {first:?}\nsecond {second:?}")
}
