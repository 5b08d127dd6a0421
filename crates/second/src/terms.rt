//! Running terms as boxed trees with named variables.

ghost use Rattle.std.specs.Prelude.{◌≡◌, ◌+◌, ◌-◌, ◌<◌, nat_lt, if◌then◌else◌};
ghost use Rattle.std.specs.Prelude.{length, vec_len, slice_index, Some, None, OnOk};

use crate::nodes::{Constant, Node, Tree};
use std::alloc::{AllocError, Global};

/// A running term. Each binder has a name of its own as it is loaded. A variable has its binder's,
/// if it has a binder.
#[derive(Clone, Drop)]
pub enum Term {
    Variable(Option<u32>),
    Constant(Constant),
    Lambda(u32, Box<Term>),
    Apply(Box<Term>, Box<Term>),
    Pair(Box<Term>, Box<Term>),
    /// The names of the left and the right component, the pair, and the body.
    Split(u32, u32, Box<Term>, Box<Term>),
    Choose(Box<Term>, Box<Term>, Box<Term>),
}

/// The names of the binders in scope, the nearest last, and the last name given.
#[derive(Drop)]
pub struct Scope {
    heap: Global,
    names: Vec<u32>,
    last: u32,
}

// The name that a variable's count of binders leads to, if there is such a binder.
fn looked_up(scope: &[u32], index: u16) -> Option<u32>
    ensures { result ≡ (if nat_lt index (length scope.now)
        then Some (slice_index scope.now (length scope.now - 1 - index)) else None) }
{
    let level = scope.len().checked_sub(index as usize + 1)?;
    Some(scope[level])
}

impl Scope {
    /// No binder, and no name given yet.
    pub fn new(heap: Global) -> Scope {
        Scope {
            heap,
            names: Vec::new(heap),
            last: 0,
        }
    }

    // A name that was not given before.
    fn fresh(&mut self) -> u32
        ensures last { result ≡ self.new.last }
        ensures names { self.new.names ≡ self.old.names }
    {
        self.last = self.last.saturating_add(1);
        self.last
    }

    // A name that was not given before, as the nearest in scope.
    fn bind(&mut self) -> Result<u32, AllocError>
        ensures { OnOk result (vec_len self.new.names ≡ vec_len self.old.names + 1) }
    {
        let x = self.fresh();
        self.names.push(x)?;
        Ok(x)
    }

    /// The named term of a tree below the binders in scope.
    pub fn name(&mut self, tree: &Tree) -> Result<Box<Term>, AllocError> {
        let level = self.names.len();
        let named = match &tree.node {
            Node::Variable(index) => Term::Variable(looked_up(&self.names, *index)),
            Node::Constant(leaf) => Term::Constant(*leaf),
            Node::Lambda(body) => Term::Lambda(self.bind()?, self.name(body)?),
            Node::Apply(a, b) => Term::Apply(self.name(a)?, self.name(b)?),
            Node::Pair(a, b) => Term::Pair(self.name(a)?, self.name(b)?),
            Node::Split(pair, body) => {
                let pair = self.name(pair)?;
                Term::Split(self.bind()?, self.bind()?, pair, self.name(body)?)
            }
            Node::Choose(a, b, c) => Term::Choose(self.name(a)?, self.name(b)?, self.name(c)?),
        };
        self.names.truncate(level);
        Ok(Box::new(self.heap, named)?)
    }
}

/// How many cells the term has, up to the most that a number holds.
pub fn size(term: &Term) -> usize
    ensures { 0 < result }
{
    match term {
        Term::Variable(_) | Term::Constant(_) => 1,
        Term::Lambda(_, body) => size(body).saturating_add(1),
        Term::Apply(a, b) | Term::Pair(a, b) | Term::Split(_, _, a, b) => size(a)
            .saturating_add(size(b))
            .saturating_add(1),
        Term::Choose(a, b, c) => size(a)
            .saturating_add(size(b))
            .saturating_add(size(c))
            .saturating_add(1),
    }
}

/// Whether the term names a qubit.
pub fn holds(term: &Term, handle: u16) -> bool {
    match term {
        Term::Constant(leaf) => *leaf == Constant::Qubit(handle),
        Term::Variable(_) => false,
        Term::Lambda(_, body) => holds(body, handle),
        Term::Apply(a, b) | Term::Pair(a, b) | Term::Split(_, _, a, b) => holds(a, handle)
            || holds(b, handle),
        Term::Choose(a, b, c) => holds(a, handle) || holds(b, handle) || holds(c, handle),
    }
}

/// Puts a value that has no free variable for each free occurrence of a name.
pub fn put(term: &mut Term, x: u32, value: &Term) -> Result<(), AllocError> {
    match term {
        Term::Variable(y) => {
            if *y == Some(x) {
                *term = value.clone()?;
            }
            Ok(())
        }
        Term::Constant(_) => Ok(()),
        Term::Lambda(y, body) => if *y == x { Ok(()) } else { put(body, x, value) },
        Term::Apply(a, b) => {
            put(a, x, value)?;
            put(b, x, value)
        }
        Term::Pair(a, b) => {
            put(a, x, value)?;
            put(b, x, value)
        }
        Term::Split(y, z, pair, body) => {
            put(pair, x, value)?;
            if *y == x || *z == x {
                Ok(())
            } else {
                put(body, x, value)
            }
        }
        Term::Choose(a, b, c) => {
            put(a, x, value)?;
            put(b, x, value)?;
            put(c, x, value)
        }
    }
}
