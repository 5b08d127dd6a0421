//! A whole shot: a stored program's text, read, checked, run and listed.

ghost use Rattle.std.specs.Prelude.{◌≡◌};
ghost use Rattle.second.specs.Reasons.{number_of};

use crate::halt::{Fault, Halt, Reason, settled};
use crate::judge::Judge;
use crate::listing::{Ending, Listing};
use crate::nodes::{Tree, grow, grow_kinds};
use crate::seeks::{SecondRule, seek};
use crate::steps::advance;
use crate::tables::{test_running, test_tables};
use crate::tape::Tape;
use crate::terms::{Scope, Term, holds, size};
use crate::texts::read;
use calculus::{MOST_RUNNING_CELLS, TermCell, TypeCell};
use kinds::Kind;
use std::alloc::{AllocError, Global};

/// How many steps a shot makes at most.
pub const BUDGET: usize = 1000;

// An accepted program: its tree, and the types by place.
#[derive(Drop)]
struct Program {
    tree: Tree,
    kinds: Vec<Kind>,
}

fn accept(heap: Global, types: &[TypeCell], terms: &[TermCell]) -> Result<Program, Halt> {
    test_tables(types, terms)?;
    let kinds = grow_kinds(heap, types)?;
    let tree = grow(heap, terms)?;
    Judge::new(heap, &kinds).judge(&tree)?;
    Ok(Program { tree, kinds })
}

fn named(heap: Global, tree: &Tree) -> Result<Box<Term>, AllocError> {
    Scope::new(heap).name(tree)
}

// A program that runs: its register, its term and the steps made.
#[derive(Drop)]
struct Shot {
    tape: Tape,
    term: Term,
    steps: usize,
}

impl Shot {
    fn new(heap: Global, tree: &Tree) -> Result<Shot, AllocError> {
        Ok(Shot {
            tape: Tape::new(heap),
            term: Box::into_inner(named(heap, tree)?),
            steps: 0,
        })
    }

    // Makes a step, and tells whether there was one to make. A rule that calls the register never
    // lengthens the term, so the length may be tested last.
    fn step(&mut self) -> Result<bool, Halt> {
        let last = self.term.clone()?;
        if !advance(&mut self.term, &mut self.tape)? {
            return Ok(false);
        }
        let next = &self.term;
        Reason::TooLong.refuse_if(size(next) > MOST_RUNNING_CELLS, 0)?;
        self.tape
            .let_go(|handle| holds(&last, handle) && !holds(next, handle));
        self.steps = self.steps.saturating_add(1);
        Ok(true)
    }

    fn run(&mut self) -> Result<Ending, AllocError> {
        for _ in 0..BUDGET {
            match settled(self.step())? {
                Ok(true) => {}
                Ok(false) => return Ok(Ending::Value),
                Err(fault) => return Ok(Ending::Refused(fault.reason)),
            }
        }
        match seek(&self.term, 0) {
            None => Ok(Ending::Value),
            Some(_) => Ok(Ending::Budget),
        }
    }
}

// Lists the type of a program and the value that it ended at.
fn list_value(
    heap: Global,
    program: &Program,
    value: &Term,
    listing: &mut Listing,
) -> Result<(), AllocError> {
    if let Some(kind) = program.kinds.get(program.tree.site.claim) {
        listing.kind(kind)?;
    }
    listing.value(value, &mut Vec::new(heap))
}

// Lists how the run of a program ended.
fn list_ending(
    heap: Global,
    program: &Program,
    shot: &Shot,
    ending: Ending,
    listing: &mut Listing,
) -> Result<(), AllocError> {
    listing.head(shot.steps, ending)?;
    if let Ending::Value = ending {
        list_value(heap, program, &shot.term, listing)?;
    }
    listing.journal(&shot.tape.journal)?;
    if let Ending::Refused(reason) = ending {
        listing.refusal(reason.at(shot.steps))?;
    }
    Ok(())
}

// Lists a run of an accepted program.
fn list_run(heap: Global, program: &Program, listing: &mut Listing) -> Result<(), AllocError> {
    let mut shot = Shot::new(heap, &program.tree)?;
    let ending = shot.run()?;
    list_ending(heap, program, &shot, ending, listing)
}

// The accepted program of a text.
fn load(heap: Global, text: &[u8]) -> Result<Program, Halt> {
    let stored = read(heap, text)?;
    accept(heap, &stored.types, &stored.terms)
}

fn shoot(heap: Global, text: &[u8], listing: &mut Listing) -> Result<(), Halt> {
    let program = load(heap, text)?;
    Ok(list_run(heap, &program, listing)?)
}

/// The listing of a stored program's shot.
pub fn second_shot(heap: Global, text: &[u8]) -> Result<String, AllocError> {
    let mut listing = Listing::new(heap);
    if let Err(fault) = settled(shoot(heap, text, &mut listing))? {
        listing.refusal(fault)?;
    }
    Ok(listing.into_text())
}

/// Nothing where the cells of a program are accepted; or the number and the cell of their fault.
pub fn second_check(
    heap: Global,
    types: &[TypeCell],
    terms: &[TermCell],
) -> Result<Result<(), (u16, usize)>, AllocError> {
    let checked = settled(accept(heap, types, terms))?;
    Ok(checked.map(|_| ()).map_err(numbered))
}

// The term of running cells.
fn load_running(heap: Global, cells: &[TermCell]) -> Result<Box<Term>, Halt> {
    test_running(cells)?;
    let tree = grow(heap, cells)?;
    Ok(named(heap, &tree)?)
}

fn find_rule(heap: Global, cells: &[TermCell]) -> Result<Option<(SecondRule, usize)>, Halt> {
    let term = load_running(heap, cells)?;
    match seek(&term, 0) {
        Some((cell, Some(rule))) => Ok(Some((rule, cell))),
        Some((cell, None)) => Err(Reason::NoRule.at(cell).into()),
        None => Ok(None),
    }
}

/// The rule of the next step of any running cells and the cell it applies at, or nothing for a
/// value; or the number and the cell of their fault.
pub fn second_find(
    heap: Global,
    cells: &[TermCell],
) -> Result<Result<Option<(SecondRule, usize)>, (u16, usize)>, AllocError> {
    Ok(settled(find_rule(heap, cells))?.map_err(numbered))
}

// A fault by its number and place.
fn numbered(fault: Fault) -> (u16, usize)
    ensures { result ≡ (number_of fault.reason, fault.place) }
{
    (fault.reason.into(), fault.place)
}
