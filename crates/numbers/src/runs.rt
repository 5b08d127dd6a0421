//! Whole runs on a tape, in numbers.

ghost use Rattle.std.specs.Prelude.{◌≡◌, ◌≤◌, IfOk};
ghost use Rattle.controller.specs.Meant.{standing};
ghost use Rattle.numbers.specs.Runs.{LoadsAndRuns, loaded_and_run, new_standing};
ghost use Rattle.numbers.specs.Runs.{run_answer, stop_answer, run_answered, run_ends, tables};
ghost use Rattle.registers.specs.Journal.{tape_changes};
ghost use Rattle.registers.specs.Telling.{tape_tells};

use crate::answers::{ACCEPTED, Verdict, refused};
use crate::tables::{Node, Pulse, give_journal, give_terms, give_types};
use calculus::{MOST_RUNNING_CELLS, MOST_TYPE_CELLS, TermCell, TypeCell};
use checker::{Accepted, check};
use controller::{Controller, Refusal, Stop};
use registers::{Entry, Register, Tape};

/// Qubits that the tape of a run holds at most.
pub const CAPACITY: usize = 8;

/// Pulses of the tape of a run at most.
pub const PULSES: usize = 64;

// The number of a run that spent its budget.
const BUDGET_SPENT: u16 = 1;

// The verdict on a run that made so many steps: 0 at a value, 1 at a spent budget, else the number
// of the refused step and its place.
fn stop_answer(steps: u64, stop: Stop) -> Verdict
    ensures { result ≡ stop_answer steps stop }
{
    let verdict = match stop {
        Stop::Value => ACCEPTED,
        Stop::Budget => Verdict {
            number: BUDGET_SPENT,
            ..ACCEPTED
        },
        Stop::Refused {
            fault,
            steps: place,
        } => refused(fault.number(), place),
    };
    Verdict { steps, ..verdict }
}

/// The verdict on a run, or on a load or a run that was refused.
pub fn run_answer(run: Result<(u64, Stop), Refusal>) -> Verdict
    ensures { result ≡ run_answer run }
{
    match run {
        Ok((steps, stop)) => stop_answer(steps, stop),
        Err(refusal) => Verdict::from(refusal),
    }
}

/// Loads a program and runs it; answers the steps made and why the run stopped.
pub fn load_and_run<R: Register>(
    controller: &mut Controller<R>,
    program: &Accepted,
    budget: u64,
    work: &mut [TermCell],
) -> Result<(u64, Stop), Refusal>
    ensures runs { LoadsAndRuns R.Register program.now.types.now program.now.terms.now budget
        (standing R.Register controller.old.shot controller.old.register work.old)
        (standing R.Register controller.new.shot controller.new.register work.new) result }
    ensures within { IfOk result (λ r. r.0 ≤ budget) }
{
    controller.load(program)?;
    controller.run(budget, work)
}

// Loads a program on a new tape of the outcomes, runs it and, at a value, collects it. Hands back
// the work table, which begins with the value if there is one, the value's type, and the journal.
fn accepted_run_verdict(
    program: &Accepted,
    outcomes: &[u8],
    budget: u64,
    value: &mut [Node],
    kinds: &mut [u32],
    pulses: &mut [Pulse],
) -> Verdict
    ensures { (result, tables value.new kinds.new pulses.new) ≡ run_ends
        (loaded_and_run tape_changes tape_tells program.now.types.now program.now.terms.now budget
        (new_standing outcomes.now)) (tables value.old kinds.old pulses.old) }
{
    let mut work = [TermCell::default(); MOST_RUNNING_CELLS];
    let mut root = [TypeCell::default(); MOST_TYPE_CELLS];
    let mut journal = [Entry::Empty; PULSES];
    let mut controller = Controller::new(Tape::new(CAPACITY, outcomes, &mut journal));
    let run = load_and_run(&mut controller, program, budget, &mut work);
    let mut verdict = run_answer(run);
    give_journal(controller.register().journal(), pulses);
    if let Ok((cells, kind_cells)) = controller.collect(&mut work, &mut root) {
        verdict.term_cells = cells as u64;
        verdict.type_cells = kind_cells as u64;
    }
    give_terms(&work, value);
    give_types(&root, kinds);
    verdict
}

/// Checks a program, loads it on a new tape of the outcomes and runs it. Hands back the work table
/// or the value, its type, and the journal, as far as there is room; of a program that is not
/// accepted nothing.
pub fn run_verdict(
    types: &[TypeCell],
    terms: &[TermCell],
    outcomes: &[u8],
    budget: u64,
    value: &mut [Node],
    kinds: &mut [u32],
    pulses: &mut [Pulse],
) -> Verdict
    ensures { (result, tables value.new kinds.new pulses.new)
        ≡ run_answered types.now terms.now outcomes.now budget
        (tables value.old kinds.old pulses.old) }
{
    match check(types, terms) {
        Ok(program) => accepted_run_verdict(&program, outcomes, budget, value, kinds, pulses),
        Err(fault) => Verdict::from(fault),
    }
}
