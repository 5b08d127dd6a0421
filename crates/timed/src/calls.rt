//! Reading, checking, finding and the next term, so many times.

ghost use Rattle.std.specs.Prelude.{◌≡◌};
ghost use Rattle.checker.specs.Accepting.{program_verdict};
ghost use Rattle.finder.specs.Finding.{answer as find_answer};
ghost use Rattle.stepper.specs.declared.writing.Answer.TheVariants.{Nothing};
ghost use Rattle.numbers.specs.Cells.{kinds_seen, cells_seen, running_seen};
ghost use Rattle.numbers.specs.Steps.{stepped};
ghost use Rattle.numbers.specs.Verdicts.{checked, located, fresh_reading, verdict_of};
ghost use Rattle.timed.specs.Sums.{sum_of};

use crate::repeating::{sum_of_verdicts, sum_with};
use calculus::{MOST_RUNNING_CELLS, MOST_TERM_CELLS, MOST_TYPE_CELLS, TermCell, TypeCell};
use numbers::{
    Node, RUNNING_PLACES, TERM_PLACES, Verdict, check_verdict, find_verdict, read_verdict,
    step_verdict, term_table, type_table,
};
use stepper::Answer;

// Reads a stored program to new tables.
fn fresh_read_verdict(text: &[u8]) -> Verdict
    ensures { result ≡ verdict_of (fresh_reading text.now).answer }
{
    let mut types = [TypeCell::default(); MOST_TYPE_CELLS];
    let mut terms = [TermCell::default(); MOST_TERM_CELLS];
    read_verdict(text, &mut types, &mut terms)
}

/// Reads a stored program so many times, each time to new tables.
#[unsafe(no_mangle)]
pub extern "C" fn timed_read(text: &[u8], times: u64) -> u64
    ensures { result ≡ sum_of times (verdict_of (fresh_reading text.now).answer) }
{
    sum_of_verdicts(times, || fresh_read_verdict(text))
}

/// Checks a program's tables so many times.
#[unsafe(no_mangle)]
pub extern "C" fn timed_check(letters: &[u32], nodes: &[Node], times: u64) -> u64
    ensures { result ≡ sum_of times
        (checked (program_verdict (kinds_seen letters.now) (cells_seen nodes.now))) }
{
    let (types, terms) = (type_table(letters), term_table::<TERM_PLACES>(nodes));
    sum_of_verdicts(times, || check_verdict(types.as_slice(), terms.as_slice()))
}

/// Finds the rule that applies to a running term so many times.
#[unsafe(no_mangle)]
pub extern "C" fn timed_find(nodes: &[Node], times: u64) -> u64
    ensures { result ≡ sum_of times (located (find_answer (running_seen nodes.now))) }
{
    let cells = term_table::<RUNNING_PLACES>(nodes);
    sum_of_verdicts(times, || find_verdict(cells.as_slice()))
}

/// Makes the first step of a running term so many times, no register being asked: finds the rule,
/// counts the next term and writes it.
#[unsafe(no_mangle)]
pub extern "C" fn timed_next(nodes: &[Node], times: u64) -> u64
    ensures { result ≡ sum_of times
        (stepped (running_seen nodes.now) Nothing (find_answer (running_seen nodes.now))) }
{
    let cells = term_table::<RUNNING_PLACES>(nodes);
    let mut work = [TermCell::default(); MOST_RUNNING_CELLS];
    let mut sum = 0;
    for _ in 0..times {
        let verdict = step_verdict(cells.as_slice(), Answer::Nothing, &mut work);
        sum = sum_with(sum, verdict);
    }
    sum
}
