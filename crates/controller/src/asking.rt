//! What a step asks of the register.

ghost use Rattle.std.specs.Prelude.{◌≡◌, false, cond, not, ◌&&◌, MatchResult, slice_index_or};
ghost use Rattle.finder.specs.declared.rules.Rule.TheVariants.{Gates};
ghost use Rattle.registers.specs.Telling.{told};
ghost use Rattle.controller.specs.Asking.{asked, after_asked, cell_at, gate_asked, qubit_at};
ghost use Rattle.controller.specs.Letting.{released, released_all};
ghost use Rattle.stepper.specs.Naming.{dropped};

use crate::faults::ControllerFault;
use calculus::{Gate, HANDLES, TermCell};
use finder::Rule;
use registers::{Register, RegisterFault};
use stepper::Answer;

/// A redex, by the cells of the running term from the redex's first one on.
#[derive(Drop)]
pub struct Redex<'a> {
    pub(crate) cells: &'a [TermCell],
}

impl<'a> Redex<'a> {
    // The cell so many places on.
    fn cell(&self, place: usize) -> Result<TermCell, ControllerFault>
        ensures { result ≡ cell_at self.now.cells.now place }
    {
        self.cells
            .get(place)
            .copied()
            .ok_or(ControllerFault::NoRule)
    }

    // The argument of the cell so many places on, where it is a handle.
    fn qubit(&self, place: usize) -> Result<u8, ControllerFault>
        ensures { result ≡ qubit_at self.now.cells.now place }
    {
        let argument = self.cell(place)?.argument;
        if (argument as usize) < HANDLES {
            Ok(argument as u8)
        } else {
            Err(ControllerFault::NoRule)
        }
    }

    // The gate that the second cell names.
    fn gate(&self) -> Result<Gate, ControllerFault>
        ensures { result ≡ gate_asked self.now.cells.now }
    {
        Gate::try_from(self.cell(1)?.argument).map_err(|_| ControllerFault::NoRule)
    }

    // Applies the gate to its qubits: one, a pair, or one and a pair.
    fn apply<R: Register>(&self, register: &mut R) -> Result<Answer, ControllerFault>
        ensures answer { result ≡ asked (told R.Register register.old) self.now.cells.now Gates }
        ensures state { MatchResult result
            (λ _. R.Register.meaning register.new ≡ after_asked (told R.Register register.old)
            self.now.cells.now R.Register.changes Gates)
            (λ _. register.new ≡ register.old) }
    {
        let gate = self.gate()?;
        match gate {
            Gate::Cnot | Gate::Swap => register.gate(gate, &[self.qubit(3)?, self.qubit(4)?])?,
            Gate::Toffoli => {
                register.gate(gate, &[self.qubit(3)?, self.qubit(5)?, self.qubit(6)?])?
            },
            Gate::H | Gate::X | Gate::Z | Gate::S | Gate::T => {
                register.gate(gate, &[self.qubit(2)?])?
            },
        }
        Ok(Answer::Nothing)
    }

    /// Asks the register for what the rule needs, and hands on its answer.
    pub fn ask<R: Register>(&self, register: &mut R, rule: Rule) -> Result<Answer, ControllerFault>
        ensures answer { result ≡ asked (told R.Register register.old) self.now.cells.now rule }
        ensures state { MatchResult result
            (λ _. R.Register.meaning register.new ≡ after_asked (told R.Register register.old)
            self.now.cells.now R.Register.changes rule)
            (λ _. register.new ≡ register.old) }
    {
        match rule {
            Rule::Prepare => {
                let bit = self.cell(2)?.op == '1';
                Ok(Answer::Handle(register.prepare(bit)?))
            },
            Rule::Read => {
                let qubit = self.qubit(2)?;
                Ok(Answer::Outcome(register.read(qubit)?))
            },
            Rule::Gates => self.apply(register),
            Rule::Function | Rule::Pair | Rule::Then | Rule::Else => Ok(Answer::Nothing),
        }
    }
}

// Lets go of a qubit that was named before and is not after. One that is not live stays as it is.
fn let_go_if_unnamed<R: Register>(register: &mut R, before: bool, after: bool, handle: u8)
    ensures { R.Register.meaning register.new ≡ cond (before && not after)
        (released R.Register.changes (R.Register.meaning register.old) handle)
        (R.Register.meaning register.old) }
{
    if before && !after {
        let _ = register.let_go(handle);
    }
}

/// Lets go of the qubits that were named before and are not after, by rising handle.
pub fn let_go_unnamed<R: Register>(
    register: &mut R,
    before: &[bool; HANDLES],
    after: &[bool; HANDLES],
)
    ensures { R.Register.meaning register.new ≡ released_all R.Register.changes
        (dropped (λ h. slice_index_or before.now h false) (λ h. slice_index_or after.now h false))
        (R.Register.meaning register.old) }
{
    for (handle, (was_named, is_named)) in before.iter().zip(after).enumerate() {
        let_go_if_unnamed(register, *was_named, *is_named, handle as u8);
    }
}
