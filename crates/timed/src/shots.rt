//! Runs and whole shots, so many times.

ghost use Rattle.std.specs.Prelude.{◌≡◌};
ghost use Rattle.numbers.specs.Cells.{kinds_seen, cells_seen};
ghost use Rattle.timed.specs.Shots.{run_made, run_told, shot_told};
ghost use Rattle.timed.specs.Sums.{sum_of};

use crate::repeating::sum_of_verdicts;
use calculus::{MOST_RUNNING_CELLS, MOST_TERM_CELLS, MOST_TYPE_CELLS, TermCell, TypeCell};
use checker::{Accepted, check};
use controller::Controller;
use numbers::{
    CAPACITY, Node, PULSES, TERM_PLACES, Verdict, load_and_run, run_answer, run_verdict,
    term_table, type_table,
};
use reader::read;
use registers::{Entry, Tape};

// Steps of a shot at most.
const BUDGET: u64 = 1000;

// Loads a program on a new tape of the outcomes and runs it, and collects nothing.
fn run_made_verdict(program: &Accepted, outcomes: &[u8], budget: u64) -> Verdict
    ensures { result ≡ run_made program.now.types.now program.now.terms.now outcomes.now budget }
{
    let mut work = [TermCell::default(); MOST_RUNNING_CELLS];
    let mut journal = [Entry::Empty; PULSES];
    let mut controller = Controller::new(Tape::new(CAPACITY, outcomes, &mut journal));
    run_answer(load_and_run(&mut controller, program, budget, &mut work))
}

/// Checks a program's tables, and then loads and runs it so many times, each time on a new tape of
/// the outcomes.
#[unsafe(no_mangle)]
pub extern "C" fn timed_run(
    letters: &[u32],
    nodes: &[Node],
    outcomes: &[u8],
    budget: u64,
    times: u64,
) -> u64
    ensures { result ≡ sum_of times
        (run_told (kinds_seen letters.now) (cells_seen nodes.now) outcomes.now budget) }
{
    let (types, terms) = (type_table(letters), term_table::<TERM_PLACES>(nodes));
    match check(types.as_slice(), terms.as_slice()) {
        Ok(program) => sum_of_verdicts(times, || run_made_verdict(&program, outcomes, budget)),
        Err(fault) => sum_of_verdicts(times, || Verdict::from(fault)),
    }
}

// Plays the shot of a stored program with new tables, and hands back no table.
fn shot_verdict(text: &[u8], outcomes: &[u8]) -> Verdict
    ensures { result ≡ shot_told text.now outcomes.now }
{
    let mut types = [TypeCell::default(); MOST_TYPE_CELLS];
    let mut terms = [TermCell::default(); MOST_TERM_CELLS];
    match read(text, &mut types, &mut terms) {
        Ok((kinds, ops)) => run_verdict(
            &types[..kinds],
            &terms[..ops],
            outcomes,
            BUDGET,
            &mut [],
            &mut [],
            &mut [],
        ),
        Err(fault) => Verdict::from(fault),
    }
}

/// Plays the shot of a stored program so many times, from its text to its value, each time on a new
/// tape of the outcomes.
#[unsafe(no_mangle)]
pub extern "C" fn timed_shot(text: &[u8], outcomes: &[u8], times: u64) -> u64
    ensures { result ≡ sum_of times (shot_told text.now outcomes.now) }
{
    sum_of_verdicts(times, || shot_verdict(text, outcomes))
}
