//! Cells as boxed trees: types by place, and the term.

ghost use Rattle.std.specs.Prelude.{◌≡◌};
ghost use Rattle.second.specs.Trees.{constant_of};

use crate::halt::{Fault, Halt, Reason};
use calculus::{TermCell, TypeCell};
use kinds::{Head, Kind};
use std::alloc::Global;

/// A term without parts that is no variable; gates and qubits have their number.
#[derive(Clone, Copy, PartialEq, Drop)]
pub enum Constant {
    Zero,
    One,
    Measure,
    New,
    Unit,
    Gate(u16),
    Qubit(u16),
}

/// Where a node's cell stands, and which place of the type table it claims.
#[derive(Clone, Copy, Drop)]
pub struct Site {
    pub cell: usize,
    pub claim: usize,
}

/// A stored term: the site of its root, and what stands there.
#[cycle(tree)]
#[derive(Drop)]
pub struct Tree {
    pub site: Site,
    pub node: Node,
}

/// A variable, counted outward from the nearest binder, a constant, or an op with its parts.
#[cycle(tree)]
#[derive(Drop)]
pub enum Node {
    Variable(u16),
    Constant(Constant),
    Lambda(Box<Tree>),
    Apply(Box<Tree>, Box<Tree>),
    Pair(Box<Tree>, Box<Tree>),
    Split(Box<Tree>, Box<Tree>),
    Choose(Box<Tree>, Box<Tree>, Box<Tree>),
}

// Takes what is on top of the stack; where the stack is empty, the cells are not whole trees.
fn pop<T>(stack: &mut Vec<T>) -> Result<T, Fault> {
    stack.pop().ok_or(Reason::NotWhole.at(0))
}

// The type of one cell, whose parts are on top of the stack, the first uppermost.
fn kind_of(heap: Global, letter: char, stack: &mut Vec<Kind>) -> Result<Kind, Halt> {
    Ok(match letter {
        'b' => Head::Bit.marked(0),
        'q' => Head::Qubit.marked(0),
        'u' => Head::Unit.marked(0),
        '!' => pop(stack)?.marked(1)?,
        '>' => Kind::arrow(heap, 0, pop(stack)?, pop(stack)?)?,
        _ => Kind::pair(heap, 0, pop(stack)?, pop(stack)?)?,
    })
}

/// The type that starts at each place of a table of whole types.
pub fn grow_kinds(heap: Global, types: &[TypeCell]) -> Result<Vec<Kind>, Halt> {
    let mut all = Vec::new(heap);
    let mut stack = Vec::new(heap);
    for cell in types.iter().rev() {
        let kind = kind_of(heap, cell.kind, &mut stack)?;
        all.push(kind.clone()?)?;
        stack.push(kind)?;
    }
    all.reverse();
    Ok(all)
}

fn part(heap: Global, stack: &mut Vec<Tree>) -> Result<Box<Tree>, Halt> {
    Ok(Box::new(heap, pop(stack)?)?)
}

fn bare(op: char, argument: u16) -> Option<Constant>
    ensures { result ≡ constant_of op argument }
{
    match op {
        '0' => Some(Constant::Zero),
        '1' => Some(Constant::One),
        'm' => Some(Constant::Measure),
        'n' => Some(Constant::New),
        's' => Some(Constant::Unit),
        'g' => Some(Constant::Gate(argument)),
        'q' => Some(Constant::Qubit(argument)),
        _ => None,
    }
}

// The tree of one cell, whose parts are on top of the stack, the first uppermost.
fn tree_of(heap: Global, cell: TermCell, at: usize, stack: &mut Vec<Tree>) -> Result<Tree, Halt> {
    let node = match cell.op {
        'v' => Node::Variable(cell.argument),
        'l' => Node::Lambda(part(heap, stack)?),
        'a' => Node::Apply(part(heap, stack)?, part(heap, stack)?),
        'p' => Node::Pair(part(heap, stack)?, part(heap, stack)?),
        'd' => Node::Split(part(heap, stack)?, part(heap, stack)?),
        'i' => Node::Choose(part(heap, stack)?, part(heap, stack)?, part(heap, stack)?),
        op => Node::Constant(bare(op, cell.argument).ok_or(Reason::BadCell.at(at))?),
    };
    let site = Site {
        cell: at,
        claim: cell.claim as usize,
    };
    Ok(Tree { site, node })
}

/// The tree of cells that are exactly one term.
pub fn grow(heap: Global, cells: &[TermCell]) -> Result<Tree, Halt> {
    let mut stack = Vec::new(heap);
    for (at, cell) in cells.iter().enumerate().rev() {
        let tree = tree_of(heap, *cell, at, &mut stack)?;
        stack.push(tree)?;
    }
    Ok(pop(&mut stack)?)
}
