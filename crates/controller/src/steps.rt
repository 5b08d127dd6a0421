//! The steps of a running term.

ghost use Rattle.std.specs.Prelude.{◌≡◌, ◌<◌, ◌≤◌, length, take, Ok, Err, OnErr};
ghost use Rattle.registers.specs.Telling.{told};
ghost use Rattle.controller.specs.Faults.{ready_answer};
ghost use Rattle.controller.specs.Running.{RunAnswer, desk};
ghost use Rattle.controller.specs.Shots.{held};
ghost use Rattle.controller.specs.Stepping.{StepLeaves, advanced, taken, one_more, count_made};
ghost use Rattle.controller.specs.Stepping.{step_made, placed};
ghost use Rattle.controller.specs.Letting.{released_all};
ghost use Rattle.controller.specs.Tables.{begun_with};
ghost use Rattle.controller.specs.Unloading.{is_value};
ghost use Rattle.stepper.specs.Naming.{dropped, names};
ghost use Rattle.stepper.specs.Next.{next_cells};

use crate::asking::{Redex, let_go_unnamed};
use crate::faults::{ControllerFault, Refusal, Stop};
use crate::shot::{Shot, refill};
use calculus::{MOST_RUNNING_CELLS, TermCell};
use finder::{FindFault, Rule, find};
use registers::Register;
use stepper::{Answer, named, next, put_next};

// Whether the finder found a value.
pub(crate) fn is_value(found: &Result<Option<(Rule, usize)>, FindFault>) -> bool
    ensures { result ≡ is_value found.now }
{
    matches!(found, Ok(None))
}

// Writes the next term to the front of a work table, and answers its cell count.
fn write_next(
    cells: &[TermCell],
    rule: Rule,
    at: usize,
    answer: Answer,
    work: &mut [TermCell],
) -> usize
    requires { (MOST_RUNNING_CELLS ≤ length work.old)
        × (length (next_cells cells.now rule at answer) ≤ MOST_RUNNING_CELLS) }
    ensures count { result ≡ length (next_cells cells.now rule at answer) }
    ensures work { work.new ≡ begun_with (next_cells cells.now rule at answer) work.old }
    ensures fits { result ≤ length work.new }
    ensures front { take result work.new ≡ next_cells cells.now rule at answer }
{
    put_next(cells, rule, at, answer, work).unwrap()
}

impl Shot {
    // Whether a step may begin: something is loaded, and the work table is long enough.
    fn ready(&self, work: &[TermCell]) -> Result<(), ControllerFault>
        ensures { result ≡ ready_answer (length (held self.now).cells) (length work.now) }
    {
        ControllerFault::NothingLoaded.refuse_if(self.cells.is_empty())?;
        ControllerFault::ShortTable.refuse_if(work.len() < MOST_RUNNING_CELLS)
    }

    // The running term becomes that of some cells, by one step more.
    fn replace(&mut self, cells: &[TermCell])
        requires { length cells.now ≤ MOST_RUNNING_CELLS }
        ensures { held self.new ≡ record {
          cells = cells.now;
          kinds = (held self.old).kinds;
          steps = one_more (held self.old).steps;
        } }
    {
        refill(&mut self.cells, cells);
        self.steps = self.steps.saturating_add(1);
    }

    // Goes on to the next term, with the register's answer, and answers its cell count. The term is
    // written to the work table and taken from there. The qubits that it names no more are let go.
    fn go_on<R: Register>(
        &mut self,
        register: &mut R,
        rule: Rule,
        at: usize,
        answer: Answer,
        work: &mut [TermCell],
    ) -> usize
        requires { (MOST_RUNNING_CELLS ≤ length work.old)
            × (length (next_cells (held self.old).cells rule at answer) ≤ MOST_RUNNING_CELLS) }
        ensures count { result ≡ length (next_cells (held self.old).cells rule at answer) }
        ensures shot { held self.new ≡ record {
          cells = next_cells (held self.old).cells rule at answer;
          kinds = (held self.old).kinds;
          steps = one_more (held self.old).steps;
        } }
        ensures register { R.Register.meaning register.new ≡ released_all R.Register.changes
            (dropped (names (held self.old).cells)
            (names (next_cells (held self.old).cells rule at answer)))
            (R.Register.meaning register.old) }
        ensures work { work.new
            ≡ begun_with (next_cells (held self.old).cells rule at answer) work.old }
    {
        let before = named(&self.cells);
        let len = write_next(&self.cells, rule, at, answer, work);
        let cells = &work[..len];
        let_go_unnamed(register, &before, &named(cells));
        self.replace(cells);
        len
    }

    // Makes the step of a rule at a cell. The next term is counted before the register is asked.
    fn advance<R: Register>(
        &mut self,
        register: &mut R,
        rule: Rule,
        at: usize,
        work: &mut [TermCell],
    ) -> Result<usize, ControllerFault>
        requires { MOST_RUNNING_CELLS ≤ length work.old }
        ensures answer { result ≡ count_made
            (advanced R.Register.changes (told R.Register register.old)
            (held self.old).cells rule at) }
        ensures state { StepLeaves R.Register
            (advanced R.Register.changes (told R.Register register.old)
            (held self.old).cells rule at)
            self.old self.new register.old register.new work.old work.new }
    {
        ControllerFault::NoRule.refuse_if(at >= self.cells.len())?;
        next(&self.cells, rule, at, Answer::Nothing, &mut []).ok_or(ControllerFault::TooLong)?;
        let redex = Redex {
            cells: &self.cells[at..],
        };
        let answer = redex.ask(register, rule)?;
        Ok(self.go_on(register, rule, at, answer, work))
    }

    // The step of what was found in the running term.
    fn take_step<R: Register>(
        &mut self,
        register: &mut R,
        found: Result<Option<(Rule, usize)>, FindFault>,
        work: &mut [TermCell],
    ) -> Result<usize, ControllerFault>
        requires { MOST_RUNNING_CELLS ≤ length work.old }
        ensures answer { result ≡ count_made
            (taken R.Register.changes (told R.Register register.old) (held self.old).cells found) }
        ensures state { StepLeaves R.Register
            (taken R.Register.changes (told R.Register register.old) (held self.old).cells found)
            self.old self.new register.old register.new work.old work.new }
    {
        let (rule, at) = found?.ok_or(ControllerFault::AtValue)?;
        self.advance(register, rule, at, work)
    }

    /// Makes one step and answers the cell count of the next term. The work table then starts with
    /// it.
    pub fn step<R: Register>(
        &mut self,
        register: &mut R,
        work: &mut [TermCell],
    ) -> Result<usize, Refusal>
        ensures answer { result ≡ placed (held self.old).steps (count_made
            (step_made R.Register.changes (told R.Register register.old)
            (held self.old) (length work.old))) }
        ensures state { StepLeaves R.Register
            (step_made R.Register.changes (told R.Register register.old)
            (held self.old) (length work.old))
            self.old self.new register.old register.new work.old work.new }
    {
        let steps = self.steps;
        self.ready(work).map_err(|fault| fault.at(steps))?;
        let found = find(&self.cells);
        self.take_step(register, found, work)
            .map_err(|fault| fault.at(steps))
    }

    /// Makes steps until the running term is a value, the budget is spent or a step is refused.
    /// Answers how many were made, and why it stopped.
    pub fn run<R: Register>(
        &mut self,
        register: &mut R,
        budget: u64,
        work: &mut [TermCell],
    ) -> Result<(u64, Stop), Refusal>
        ensures answer { RunAnswer R.Register budget
            (desk self.old register.old work.old) (desk self.new register.new work.new) result }
        ensures refused { OnErr result
            ((self.new ≡ self.old) × (register.new ≡ register.old) × (work.new ≡ work.old)) }
    {
        self.ready(work).map_err(|fault| fault.at(self.steps))?;
        let mut made = 0;
        loop {
            let found = find(&self.cells);
            if is_value(&found) {
                return Ok((made, Stop::Value));
            }
            if made >= budget {
                return Ok((made, Stop::Budget));
            }
            if let Err(fault) = self.take_step(register, found, work) {
                let stop = Stop::Refused {
                    fault,
                    steps: self.steps,
                };
                return Ok((made, stop));
            }
            made += 1;
        }
    }
}
