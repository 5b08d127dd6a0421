//! Loading a program, and unloading it.

ghost use Rattle.std.specs.Prelude.{◌≡◌, ◌≤◌, map, length, take, MatchResult};
ghost use Rattle.controller.specs.Loading.{is_made, first_unmade, load_answer};
ghost use Rattle.controller.specs.Shots.{claiming_nothing, held, nothing_held, program_held};
ghost use Rattle.controller.specs.Shots.{root_cells, root_claim};

use crate::faults::{ControllerFault, Refusal};
use crate::shot::{Shot, refill};
use calculus::{Gate, MOST_TYPE_CELLS, TermCell, TypeCell};
use checker::Accepted;
use registers::Register;
use trees::{copy, first_failing};

// Whether a cell names no gate, or one that the register makes.
fn is_made<R: Register>(register: &R, cell: &TermCell) -> bool
    ensures { result ≡ is_made (R.Register.meaning register.now).makes cell.now }
{
    cell.op != 'g' || Gate::try_from(cell.argument).is_ok_and(|gate| register.makes(gate))
}

// Has every cell claim nothing.
fn forget_claims(cells: &mut [TermCell])
    ensures { cells.new ≡ map claiming_nothing cells.old }
{
    for cell in cells {
        cell.claim = 0;
    }
}

// The place that a term's root claims.
fn root_claim(terms: &[TermCell]) -> usize
    ensures { result ≡ root_claim terms.now }
{
    terms.first().map_or(0, |root| root.claim as usize)
}

// Copies the cells of the type that a program's root claims to the front of a table, and answers
// their count.
fn copy_root_type(program: &Accepted, table: &mut [TypeCell]) -> usize
    requires { length table.old ≡ MOST_TYPE_CELLS }
    ensures cells { take result table.new
        ≡ root_cells program.now.types.now program.now.terms.now }
    ensures within { result ≤ length table.new }
    ensures length { length table.new ≡ MOST_TYPE_CELLS }
{
    copy(program.types(), root_claim(program.terms()), table).unwrap()
}

// The first cell that names a gate which the register does not make.
fn first_unmade<R: Register>(register: &R, terms: &[TermCell]) -> Option<usize>
    ensures { result ≡ first_unmade (R.Register.meaning register.now).makes terms.now }
{
    first_failing(terms, |cell| is_made(register, &cell))
}

impl Shot {
    /// Copies an accepted program's term, which claims nothing as it runs, and its root's type.
    /// Answers the cell count.
    pub fn load<R: Register>(&mut self, register: &R, program: &Accepted) -> Result<usize, Refusal>
        ensures answer { result ≡ load_answer (R.Register.meaning register.now).makes
            (held self.old) program.now.terms.now }
        ensures state { MatchResult result
            (λ _. held self.new ≡ program_held program.now.types.now program.now.terms.now)
            (λ _. self.new ≡ self.old) }
    {
        self.refuse_if(ControllerFault::AlreadyLoaded, !self.cells.is_empty())?;
        let terms = program.terms();
        if let Some(cell) = first_unmade(register, terms) {
            return Err(ControllerFault::GateNotMade.at(cell as u64));
        }
        refill(&mut self.cells, terms);
        forget_claims(&mut self.cells);
        let mut kinds = [TypeCell::default(); MOST_TYPE_CELLS];
        let len = copy_root_type(program, &mut kinds);
        refill(&mut self.kinds, &kinds[..len]);
        self.steps = 0;
        Ok(terms.len())
    }

    /// Nothing is loaded any more.
    pub fn unload(&mut self)
        ensures { held self.new ≡ nothing_held }
    {
        self.cells.clear();
        self.kinds.clear();
        self.steps = 0;
    }
}
