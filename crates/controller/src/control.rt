//! One shot with its register.

ghost use Rattle.controller.specs.Keeping.{Kept};
ghost use Rattle.controller.specs.Shots.{held};

use crate::faults::{Refusal, Stop};
use crate::shot::Shot;
use calculus::{TermCell, TypeCell};
use checker::Accepted;
use registers::Register;

/// A controller of one register, which has a program loaded or nothing.
#[derive(Drop)]
pub struct Controller<R: Register> {
    shot: Shot,
    register: R,
    // Some row leads to where the controller is.
    ghost reached: { ∥ Kept R.Register.changes (held shot) (R.Register.meaning register) ∥₁ },
}

impl<R: Register> Controller<R> {
    ghost use Rattle.std.specs.Prelude.{◌≡◌, length, is_err, MatchResult, OnErr};
    ghost use Rattle.rows.specs.Members.{step, run, collect, abandon};
    ghost use Rattle.registers.specs.Meaning.{after_clear};
    ghost use Rattle.registers.specs.Telling.{told};
    ghost use Rattle.controller.specs.Calls.{IsKept, CallKeeps, LoadKeeps, CallAnswers};
    ghost use Rattle.controller.specs.Calls.{LoadAnswers, LoadCarries, StopAnswers};
    ghost use Rattle.controller.specs.Loading.{load_answer};
    ghost use Rattle.controller.specs.Meant.{standing};
    ghost use Rattle.controller.specs.Running.{RunAnswer, desk};
    ghost use Rattle.controller.specs.Settled.{RunIsSettled};
    ghost use Rattle.controller.specs.Shots.{held, nothing_held, program_held};
    ghost use Rattle.checker.specs.Accepting.{IsDerivable};
    ghost use Rattle.controller.specs.Sound.{OnlyWantStopsStep};
    ghost use Rattle.controller.specs.Stepping.{StepLeaves, count_made, step_made, placed};
    ghost use Rattle.controller.specs.Unloading.{Ends, abandon_answer, collect_answer};
    ghost use Rattle.controller.specs.Tables.{begun_with};

    /// Takes a register and clears it; nothing is loaded.
    pub fn new(mut register: R) -> Controller<R>
        ensures held { held result.shot ≡ nothing_held }
        ensures register { R.Register.meaning result.register
            ≡ after_clear R.Register.changes (R.Register.meaning register) }
        ensures kept { IsKept R.Register result }
    {
        register.clear();
        Controller {
            shot: Shot::default(),
            register,
        }
    }

    /// Loads an accepted program, and answers the cell count of its term.
    pub fn load(&mut self, program: &Accepted) -> Result<usize, Refusal>
        ensures answer { result ≡ load_answer (R.Register.meaning self.old.register).makes
            (held self.old.shot) program.now.terms.now }
        ensures state { MatchResult result
            (λ _. (held self.new.shot ≡ program_held program.now.types.now program.now.terms.now)
            × (self.new.register ≡ self.old.register))
            (λ _. self.new ≡ self.old) }
        ensures derivable { IsDerivable program.now.types.now program.now.terms.now }
        ensures kept { LoadKeeps R.Register program.now.types.now program.now.terms.now
            self.old self.new (is_err result) }
        ensures place { LoadCarries R.Register program.now.types.now program.now.terms.now
            self.old result }
        ensures lowest { LoadAnswers R.Register program.now.types.now program.now.terms.now
            self.old result }
    {
        self.shot.load(&self.register, program)
    }

    /// Makes one step and answers the cell count of the next term. The work table then starts with
    /// it.
    pub fn step(&mut self, work: &mut [TermCell]) -> Result<usize, Refusal>
        ensures answer { result ≡ placed (held self.old.shot).steps (count_made
            (step_made R.Register.changes (told R.Register self.old.register)
            (held self.old.shot) (length work.old))) }
        ensures state { StepLeaves R.Register
            (step_made R.Register.changes (told R.Register self.old.register)
            (held self.old.shot) (length work.old))
            self.old.shot self.new.shot self.old.register self.new.register work.old work.new }
        ensures kept { CallKeeps R.Register (step (length work.old))
            self.old self.new (is_err result) }
        ensures refusal { OnlyWantStopsStep R.Register (held self.old.shot) self.old.register
            (length work.old) (is_err result) }
        ensures lowest { CallAnswers R.Register (step (length work.old)) self.old result }
    {
        self.shot.step(&mut self.register, work)
    }

    /// Makes steps until the running term is a value, the budget is spent or a step is refused.
    /// Answers how many were made, and why it stopped.
    pub fn run(&mut self, budget: u64, work: &mut [TermCell]) -> Result<(u64, Stop), Refusal>
        ensures answer { RunAnswer R.Register budget
            (desk self.old.shot self.old.register work.old)
            (desk self.new.shot self.new.register work.new) result }
        ensures refused { OnErr result ((self.new ≡ self.old) × (work.new ≡ work.old)) }
        ensures settled { RunIsSettled R.Register budget
            (standing R.Register self.old.shot self.old.register work.old)
            (standing R.Register self.new.shot self.new.register work.new) result }
        ensures kept { CallKeeps R.Register (run budget (length work.old))
            self.old self.new (is_err result) }
        ensures lowest { CallAnswers R.Register (run budget (length work.old)) self.old result }
        ensures stop { StopAnswers R.Register self.new result }
    {
        self.shot.run(&mut self.register, budget, work)
    }

    /// Writes the value and its type at the front of two tables, clears the register and unloads.
    /// Answers both counts.
    pub fn collect(
        &mut self,
        value: &mut [TermCell],
        kinds: &mut [TypeCell],
    ) -> Result<(usize, usize), Refusal>
        ensures answer { result ≡ collect_answer (held self.old.shot)
            (length value.old) (length kinds.old) }
        ensures state { MatchResult result
            (λ _. Ends R.Register self.new.shot self.old.register self.new.register)
            (λ _. self.new ≡ self.old) }
        ensures tables { MatchResult result
            (λ _. (value.new ≡ begun_with (held self.old.shot).cells value.old)
            × (kinds.new ≡ begun_with (held self.old.shot).kinds kinds.old))
            (λ _. (value.new ≡ value.old) × (kinds.new ≡ kinds.old)) }
        ensures kept { CallKeeps R.Register (collect (length value.old) (length kinds.old))
            self.old self.new (is_err result) }
        ensures lowest { CallAnswers R.Register (collect (length value.old) (length kinds.old))
            self.old result }
    {
        self.shot.collect(&mut self.register, value, kinds)
    }

    /// Clears the register and unloads.
    pub fn abandon(&mut self) -> Result<(), Refusal>
        ensures answer { result ≡ abandon_answer (held self.old.shot) }
        ensures state { MatchResult result
            (λ _. Ends R.Register self.new.shot self.old.register self.new.register)
            (λ _. self.new ≡ self.old) }
        ensures kept { CallKeeps R.Register abandon self.old self.new (is_err result) }
        ensures lowest { CallAnswers R.Register abandon self.old result }
    {
        self.shot.abandon(&mut self.register)
    }

    /// The register, for questions.
    pub fn register(&self) -> &R
        ensures { result.now ≡ self.now.register }
    {
        &self.register
    }
}
