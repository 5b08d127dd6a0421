//! Types as boxed trees, each node of which counts the marks that lead it, so that stripping them
//! is no work; and the variables that a constant uses.
#![tactic(auto)]

ghost use Rattle.std.specs.Prelude.{◌≡◌, [], ◌∷◌, ◌++◌, ◌+◌, ◌-◌, ◌^◌, min, IfOk, OnOk};
ghost use Rattle.calculus.specs.Types.{bangs, arrow, tensor};
ghost use Rattle.calculus.specs.Cells.{kind_cell, type_cells};
ghost use Rattle.calculus.specs.Stripping.{same as same_type, subtype};
ghost use Rattle.kinds.specs.Kinds.{head_type, kind_type, qubits_type};

use calculus::TypeCell;
use std::alloc::{AllocError, Global};
use std::collections::BTreeSet;

/// A type: how many marks (`!`) lead it, and the head that they lead. From one mark on, its values
/// may be used any number of times.
#[cycle(kind)]
#[derive(Drop)]
pub struct Kind {
    pub marks: usize,
    pub head: Head,
}

/// What a type is under its marks.
#[cycle(kind)]
#[derive(Drop)]
pub enum Head {
    Bit,
    Qubit,
    Unit,
    Arrow(Box<Kind>, Box<Kind>),
    Pair(Box<Kind>, Box<Kind>),
}

impl Head {
    /// The type of this head under so many marks.
    pub fn marked(self, marks: usize) -> Kind
        ensures { result ≡ record { marks = marks; head = self } }
    {
        Kind { marks, head: self }
    }
}

impl Kind {
    /// The type of functions from one type to another, under so many marks.
    pub fn arrow(heap: Global, marks: usize, from: Kind, to: Kind) -> Result<Kind, AllocError>
        ensures { IfOk result (λ k. kind_type k
            ≡ bangs marks (arrow (kind_type from) (kind_type to))) }
    {
        Ok(Head::Arrow(Box::new(heap, from)?, Box::new(heap, to)?).marked(marks))
    }

    /// The type of pairs of two types, under so many marks.
    pub fn pair(heap: Global, marks: usize, left: Kind, right: Kind) -> Result<Kind, AllocError>
        ensures { IfOk result (λ k. kind_type k
            ≡ bangs marks (tensor (kind_type left) (kind_type right))) }
    {
        Ok(Head::Pair(Box::new(heap, left)?, Box::new(heap, right)?).marked(marks))
    }

    /// The type of so many qubits: of one, or of a pair of one and the others.
    pub fn qubits(heap: Global, count: usize) -> Result<Kind, AllocError>
        ensures { IfOk result (λ k. kind_type k ≡ qubits_type count) }
    {
        let mut all = Head::Qubit.marked(0);
        for _ in 1..count {
            all = Kind::pair(heap, 0, Head::Qubit.marked(0), all)?;
        }
        Ok(all)
    }

    #[tactic(auto, using(crate::proofs::Types::more_of))]
    /// A copy of the type with more marks in front, up to the most that a number holds.
    pub fn marked(&self, more: usize) -> Result<Kind, AllocError>
        ensures { IfOk result (λ k. kind_type k
            ≡ bangs (min (self.now.marks + more) (2 ^ 64 - 1)) (head_type self.now.head)) }
    {
        let mut all = copy(self)?;
        all.marks = all.marks.saturating_add(more);
        Ok(all)
    }
}

impl Clone for Kind {
    ghost is_clone = { λ k copied. kind_type copied ≡ kind_type k };

    fn clone(&self) -> Result<Kind, AllocError> {
        copy(self)
    }
}

// The same type in boxes of its own.
fn copy(kind: &Kind) -> Result<Kind, AllocError>
    ensures { IfOk result (λ k. kind_type k ≡ kind_type kind.now) }
{
    match &kind.head {
        Head::Bit => Ok(Head::Bit.marked(kind.marks)),
        Head::Qubit => Ok(Head::Qubit.marked(kind.marks)),
        Head::Unit => Ok(Head::Unit.marked(kind.marks)),
        Head::Arrow(a, b) => Kind::arrow(*Box::allocator(a), kind.marks, copy(a)?, copy(b)?),
        Head::Pair(a, b) => Kind::pair(*Box::allocator(a), kind.marks, copy(a)?, copy(b)?),
    }
}

fn add(cells: &mut Vec<TypeCell>, kind: char) -> Result<(), AllocError>
    ensures { OnOk result (cells.new.items ≡ cells.old.items ++ (kind_cell kind ∷ [])) }
{
    cells.push(TypeCell { kind })?;
    Ok(())
}

/// Writes a type's cells behind others.
pub fn write_kind(kind: &Kind, cells: &mut Vec<TypeCell>) -> Result<(), AllocError>
    ensures { OnOk result (cells.new.items ≡ cells.old.items ++ type_cells (kind_type kind.now)) }
{
    for _ in 0..kind.marks {
        add(cells, '!')?;
    }
    match &kind.head {
        Head::Bit => add(cells, 'b'),
        Head::Qubit => add(cells, 'q'),
        Head::Unit => add(cells, 'u'),
        Head::Arrow(a, b) => {
            add(cells, '>')?;
            write_kind(a, cells)?;
            write_kind(b, cells)
        }
        Head::Pair(a, b) => {
            add(cells, '*')?;
            write_kind(a, cells)?;
            write_kind(b, cells)
        }
    }
}

/// Whether two types are the same tree.
pub fn same(a: &Kind, b: &Kind) -> bool
    ensures { result ≡ same_type (kind_type a.now) (kind_type b.now) }
{
    if a.marks != b.marks {
        return false;
    }
    match (&a.head, &b.head) {
        (Head::Bit, Head::Bit) | (Head::Qubit, Head::Qubit) | (Head::Unit, Head::Unit) => true,
        (Head::Arrow(a, b), Head::Arrow(c, d)) => same(a, c) && same(b, d),
        (Head::Pair(a, b), Head::Pair(c, d)) => same(a, c) && same(b, d),
        _ => false,
    }
}

/// Whether the first type is a subtype of the second.
pub fn is_below(a: &Kind, b: &Kind) -> bool
    ensures { result ≡ subtype (kind_type a.now) (kind_type b.now) }
{
    if b.marks > 0 && a.marks == 0 {
        return false;
    }
    match (&a.head, &b.head) {
        (Head::Bit, Head::Bit) | (Head::Qubit, Head::Qubit) | (Head::Unit, Head::Unit) => true,
        (Head::Arrow(a, b), Head::Arrow(c, d)) => is_below(c, a) && is_below(b, d),
        (Head::Pair(a, b), Head::Pair(c, d)) => is_below(a, c) && is_below(b, d),
        _ => false,
    }
}

/// The levels of the variables that a constant of any type uses: none.
pub fn leaf_uses(heap: Global) -> BTreeSet<usize>
    ensures { result.keys ≡ [] }
{
    BTreeSet::new(heap)
}
