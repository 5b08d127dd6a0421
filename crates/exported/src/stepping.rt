//! Finding the rule of a running term, and writing the next term.

ghost use Rattle.std.specs.Prelude.{◌≡◌, ℕ};
ghost use Rattle.finder.specs.Finding.{answer as find_answer};
ghost use Rattle.exported.specs.Steps.{answer_of, stepped_to};
ghost use Rattle.numbers.specs.Cells.{running_seen};
ghost use Rattle.numbers.specs.Steps.{stepped};
ghost use Rattle.finder.specs.declared.rules.Rule.{Rule};
ghost use Rattle.numbers.specs.Verdicts.{located};
ghost use Rattle.stepper.specs.Laws.{MakesStep};

use calculus::{MOST_RUNNING_CELLS, TermCell};
use numbers::{Node, RUNNING_PLACES, Verdict, find_verdict, give_terms, step_verdict, term_table};
use stepper::Answer;

// The register's answer as a number: a handle, which is below all of these, nothing, and the two
// outcomes.
const NOTHING: u64 = 256;

const ZERO: u64 = 257;

const ONE: u64 = 258;

// The register's answer by its number; a number above these is nothing too.
fn answer_of(number: u64) -> Answer
    ensures { result ≡ answer_of number }
{
    match number {
        0..NOTHING => Answer::Handle(number as u8),
        ZERO => Answer::Outcome(false),
        ONE => Answer::Outcome(true),
        _ => Answer::Nothing,
    }
}

/// The number of the rule that applies to a running term, and the cell it applies at; 0 and 0 for a
/// value; or the fault and its cell.
#[unsafe(no_mangle)]
pub extern "C" fn ql_find(nodes: &[Node]) -> Verdict
    ensures { result ≡ located (find_answer (running_seen nodes.now)) }
{
    find_verdict(term_table::<RUNNING_PLACES>(nodes).as_slice())
}

/// The next term by the rule that applies and a register's answer, handed back as far as there is
/// room: the rule, its cell and the count of the next term; 36 or the finder's fault where no rule
/// applies, 37 where there are too many cells, 35 at a value.
///
/// The next term is that of a step where the nodes mean a term in which nothing but qubits is free,
/// and the answer fits the rule. A value is put under binders as it stands, where a step raises the
/// variables that are free in it. An answer to a rule that asks for none is disregarded; to another
/// rule its cell stands for the redex, whichever it is.
#[unsafe(no_mangle)]
pub extern "C" fn ql_next(nodes: &[Node], answer: u64, to: &mut [Node]) -> Verdict
    ensures answer { result ≡ stepped (running_seen nodes.now) (answer_of answer)
        (find_answer (running_seen nodes.now)) }
    ensures table { to.new ≡ stepped_to (running_seen nodes.now) (answer_of answer) to.old
        (find_answer (running_seen nodes.now)) }
    ensures step { (rule : Rule) (at : ℕ) →
        MakesStep (running_seen nodes.now) rule at (answer_of answer) }
{
    let cells = term_table::<RUNNING_PLACES>(nodes);
    let mut work = [TermCell::default(); MOST_RUNNING_CELLS];
    let verdict = step_verdict(cells.as_slice(), answer_of(answer), &mut work);
    if verdict.number == 0 {
        give_terms(&work, to);
    }
    verdict
}
