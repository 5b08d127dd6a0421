//! Finds the rule that applies to a running term, and the cell it applies at.

ghost use Rattle.std.specs.Prelude.{◌≡◌, ◌+◌, ◌<◌, ◌≤◌, length, drop, Some};
ghost use Rattle.std.specs.Option.{option_or};
ghost use Rattle.calculus.specs.Letters.{arity};
ghost use Rattle.calculus.specs.Reading.{term_at, TermsStand};
ghost use Rattle.calculus.specs.Terms.{size, erased};
ghost use Rattle.trees.specs.Reach.{ends};
ghost use Rattle.finder.specs.Finding.{end_or, tested, answer};
ghost use Rattle.finder.specs.Progress.{found_of};
ghost use Rattle.finder.specs.Search.{found};
ghost use Rattle.finder.specs.Sheet.{Answers};
ghost use Rattle.finder.specs.Words.{spelt, operand_word, applied_of, branched_of, opened_of};

use crate::faults::{FindFault, FindReason};
use crate::rules::Rule;
use calculus::{Gate, MOST_RUNNING_CELLS, TermCell, is_allowed};
use trees::{first_failing, not_one_tree, reach};

// Whether the ops of the cells begin with the letters of a word.
fn spells(cells: &[TermCell], word: &[char]) -> bool
    ensures { result ≡ spelt word.now cells.now }
{
    word.len() <= cells.len()
        && cells
            .iter()
            .zip(word)
            .all(|(cell, letter)| cell.op == *letter)
}

// Whether the cells begin with as many qubits as the gate of a number takes.
fn are_operands(cells: &[TermCell], gate: u16) -> bool
    ensures { result ≡ spelt (operand_word gate) cells.now }
{
    match Gate::try_from(gate) {
        Ok(Gate::Cnot | Gate::Swap) => spells(cells, &['p', 'q', 'q']),
        Ok(Gate::Toffoli) => spells(cells, &['p', 'q', 'p', 'q', 'q']),
        _ => spells(cells, &['q']),
    }
}

// The rule for a value, by its first cell, applied to the value that the other cells begin with.
fn applied(function: TermCell, argument: &[TermCell]) -> Option<Rule>
    ensures { result ≡ applied_of function.op function.argument argument.now }
{
    match function.op {
        'l' => Some(Rule::Function),
        'n' => (spells(argument, &['0']) || spells(argument, &['1'])).then_some(Rule::Prepare),
        'm' => spells(argument, &['q']).then_some(Rule::Read),
        'g' => are_operands(argument, function.argument).then_some(Rule::Gates),
        _ => None,
    }
}

// The rule for a condition that is a value, by its first cell.
fn branched(condition: TermCell) -> Option<Rule>
    ensures { result ≡ branched_of condition.op }
{
    match condition.op {
        '0' => Some(Rule::Else),
        '1' => Some(Rule::Then),
        _ => None,
    }
}

// The rule for a let of a value, by its first cell.
fn opened(pair: TermCell) -> Option<Rule>
    ensures { result ≡ opened_of pair.op }
{
    (pair.op == 'p').then_some(Rule::Pair)
}

// One past the tree at `at`, or `at` itself where none stands there.
fn past(cells: &[TermCell], at: usize) -> usize
    ensures end { result ≡ end_or at (ends arity 1 (drop at cells.now) at) }
    ensures on { at ≤ result }
{
    reach(cells, at).unwrap_or(at)
}

// Whether a term goes on, and where.
#[derive(Clone, Copy, Drop)]
enum Progress {
    // It is a value.
    Value,
    // The rule applies at the cell.
    Step(Rule, usize),
    // No rule applies at the cell that is due.
    Stuck(usize),
}

impl Progress {
    // By the rule that applies at the cell that is due, if one does.
    fn due(cell: usize, rule: Option<Rule>) -> Progress
        ensures { found_of result ≡ Some (cell, rule) }
    {
        match rule {
            Some(rule) => Progress::Step(rule, cell),
            None => Progress::Stuck(cell),
        }
    }

    // Whether this term or the next goes on, this one first.
    fn or(self, next: Progress) -> Progress
        ensures { found_of result ≡ option_or (found_of self) (found_of next) }
    {
        match self {
            Progress::Value => next,
            due => due,
        }
    }
}

// One past the tree at `at`, and whether its term goes on.
fn work(cells: &[TermCell], at: usize) -> (usize, Progress)
    requires { TermsStand cells.now × (at < length cells.now) }
    ensures end { result.0 ≡ at + size (term_at cells.now at) }
    ensures progress { found_of result.1 ≡ found at (erased (term_at cells.now at)) }
{
    match cells[at].op {
        'l' => (past(cells, at), Progress::Value),
        'a' => {
            let (middle, function) = work(cells, at + 1);
            let (end, argument) = work(cells, middle);
            match argument.or(function) {
                Progress::Value => {
                    let rule = applied(cells[at + 1], &cells[middle..]);
                    (end, Progress::due(at, rule))
                }
                due => (end, due),
            }
        }
        'p' => {
            let (middle, left) = work(cells, at + 1);
            let (end, right) = work(cells, middle);
            (end, left.or(right))
        }
        'd' => {
            let (middle, pair) = work(cells, at + 1);
            let end = past(cells, middle);
            match pair {
                Progress::Value => (end, Progress::due(at, opened(cells[at + 1]))),
                due => (end, due),
            }
        }
        'i' => {
            let (middle, condition) = work(cells, at + 1);
            let end = past(cells, past(cells, middle));
            match condition {
                Progress::Value => (end, Progress::due(at, branched(cells[at + 1]))),
                due => (end, due),
            }
        }
        _ => (at + 1, Progress::Value),
    }
}

// Tests that the cells may be a running term: not too many, each with an argument that its letter
// allows, exactly one tree.
fn test_cells(cells: &[TermCell]) -> Result<(), FindFault>
    ensures { result ≡ tested cells.now }
{
    if cells.len() > MOST_RUNNING_CELLS {
        return Err(FindReason::TooManyCells.at(MOST_RUNNING_CELLS));
    }
    FindReason::BadCell.refuse_at(first_failing(cells, |cell| is_allowed(cell)))?;
    FindReason::NotWhole.refuse_at(not_one_tree(cells))
}

/// The rule that applies to a running term and the cell it applies at, or nothing for a value.
/// Claims are disregarded. A refusal is by the first row of the sheet that holds.
pub fn find(cells: &[TermCell]) -> Result<Option<(Rule, usize)>, FindFault>
    ensures answer { result ≡ answer cells.now }
    ensures first { Answers cells.now result }
{
    test_cells(cells)?;
    match work(cells, 0).1 {
        Progress::Value => Ok(None),
        Progress::Step(rule, cell) => Ok(Some((rule, cell))),
        Progress::Stuck(cell) => Err(FindReason::NoRule.at(cell)),
    }
}
