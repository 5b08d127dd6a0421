//! A program as it is checked: both tables, where each tree of the term ends, and the term's nodes.

ghost use Rattle.std.specs.Prelude.{◌≡◌, ◌+◌, ◌<◌, ◌≤◌, length, drop};
ghost use Rattle.calculus.specs.Letters.{arity};
ghost use Rattle.calculus.specs.Reading.{TermsStand};
ghost use Rattle.checker.specs.Ending.{EndsFrom, trees_end};
ghost use Rattle.checker.specs.Tested.{Judged, Tested};
ghost use Rattle.trees.specs.Whole.{height};

use calculus::{MOST_TERM_CELLS, TermCell, TypeCell};
use subtyping::TypeAt;
use trees::Cell;

/// Both tables of a program that passed the tests, and one past the tree at each place of the term.
#[derive(Drop)]
pub struct Program<'a> {
    types: &'a [TypeCell],
    terms: &'a [TermCell],
    ends: [u16; MOST_TERM_CELLS],
    ghost judged: { Judged types.now terms.now ends },
}

impl<'a> Program<'a> {
    /// The tables, with the ends of the term's trees.
    pub(crate) fn new(types: &'a [TypeCell], terms: &'a [TermCell]) -> Program<'a>
        requires { Tested types.now terms.now }
        ensures { (result.types.now ≡ types.now) × (result.terms.now ≡ terms.now) }
    {
        Program {
            types,
            terms,
            ends: tree_ends(terms),
        }
    }
}

/// The term at a place of a program.
#[derive(Clone, Copy, Drop)]
pub struct Node<'a> {
    program: &'a Program<'a>,
    pub at: usize,
    ghost inside: { at < length program.now.terms.now },
}

impl<'a> Node<'a> {
    ghost use Rattle.std.specs.Prelude.{◌≡◌, ◌<◌, length};
    ghost use Rattle.calculus.specs.Letters.{arity};
    ghost use Rattle.calculus.specs.Terms.{claim_of};
    ghost use Rattle.checker.specs.Judging.{PartOf, cell_of, term_of};
    ghost use Rattle.subtyping.specs.Meaning.{meant};

    /// The term at a place.
    pub(crate) fn new(program: &'a Program<'a>, at: usize) -> Node<'a>
        requires { at < length program.now.terms.now }
        ensures { (result.program.now ≡ program.now) × (result.at ≡ at) }
    {
        Node { program, at }
    }

    /// The cell that the term begins with.
    pub(crate) fn cell(self) -> TermCell
        ensures { result ≡ cell_of self.entry }
    {
        self.program.terms[self.at]
    }

    /// The type that the term claims.
    pub(crate) fn claim(self) -> TypeAt<'a>
        ensures claimed { meant result ≡ claim_of (term_of self.entry) }
        ensures bare { result.marks ≡ 0 }
    {
        TypeAt::new(self.program.types, self.cell().claim as usize)
    }

    /// A part of the term, the parts counted from 0.
    pub(crate) fn part(self, part: usize) -> Node<'a>
        requires { part < arity (cell_of self) }
        ensures { PartOf self.entry part result }
    {
        let program = self.program;
        let at = past_trees(&program.ends, program.terms, self.at + 1, part);
        Node::new(program, at)
    }
}

// One past so many trees from `at` on, by the ends of the trees there.
fn past_trees(ends: &[u16], terms: &[TermCell], at: usize, trees: usize) -> usize
    requires { (TermsStand terms.now)
        × ((at ≤ length terms.now)
        × ((length terms.now ≤ length ends.now)
        × ((EndsFrom at terms.now ends.now)
        × (trees ≤ height arity (drop at terms.now))))) }
    ensures end { result ≡ trees_end terms.now at trees }
    ensures within { (at ≤ result) × (result ≤ length terms.now) }
{
    let mut end = at;
    for _passed in 0..trees {
        end = ends[end] as usize;
    }
    end
}

// One past the tree at each place, found from the last place to the first.
fn tree_ends(terms: &[TermCell]) -> [u16; MOST_TERM_CELLS]
    requires { (TermsStand terms.now) × (length terms.now ≤ MOST_TERM_CELLS) }
    ensures { EndsFrom 0 terms.now result }
{
    let mut ends = [0; MOST_TERM_CELLS];
    for i in (0..terms.len()).rev() {
        let end = past_trees(&ends, terms, i + 1, terms[i].parts());
        ends[i] = end as u16;
    }
    ends
}
