//! The typing rules on trees: the first fault in tree order, and which variables a tree uses.

ghost use Rattle.std.specs.Prelude.{◌≡◌, ◌+◌, ◌<◌, ◌≤◌, length, [], vec_len};
ghost use Rattle.std.specs.Prelude.{Ok, Err, IfOk, MatchResult};
ghost use Rattle.second.specs.Reasons.{fault, halt};
ghost use Rattle.second.specs.declared.halt.Reason.TheVariants.{ClaimOutside, NoBinder, TooDeep};

use crate::halt::{Fault, Halt, Reason};
use crate::nodes::{Constant, Node, Site, Tree};
use calculus::MOST_BINDERS;
use kinds::{Head, Kind, is_below, leaf_uses, same};
use std::alloc::{AllocError, Global};
use std::collections::BTreeSet;

// How many qubits a gate of a number works on.
fn arity(gate: u16) -> usize {
    match gate {
        0..=4 => 1,
        5 | 6 => 2,
        _ => 3,
    }
}

// Whether a constant's own type is a subtype of a claim. The unit value may claim the unit under
// any marks.
fn is_typed(heap: Global, leaf: Constant, claim: &Kind) -> Result<bool, AllocError> {
    let own = match leaf {
        Constant::Zero | Constant::One => Head::Bit.marked(1),
        Constant::New => Kind::arrow(heap, 1, Head::Bit.marked(0), Head::Qubit.marked(0))?,
        Constant::Measure => Kind::arrow(heap, 1, Head::Qubit.marked(0), Head::Bit.marked(1))?,
        Constant::Unit => Head::Unit.marked(1),
        Constant::Gate(gate) => {
            let qubits = Kind::qubits(heap, arity(gate))?;
            Kind::arrow(heap, 1, qubits.clone()?, qubits)?
        }
        Constant::Qubit(_) => return Ok(false),
    };
    Ok(is_below(&own, claim))
}

// The two sets of levels together.
fn together(
    mut left: BTreeSet<usize>,
    mut right: BTreeSet<usize>,
) -> Result<BTreeSet<usize>, AllocError> {
    left.append(&mut right)?;
    Ok(left)
}

// The two sets of levels together, where no level is in both.
fn apart(
    site: Site,
    left: BTreeSet<usize>,
    right: BTreeSet<usize>,
) -> Result<BTreeSet<usize>, Halt> {
    Reason::UsedTwice.refuse_if(!left.is_disjoint(&right), site.cell)?;
    Ok(together(left, right)?)
}

// The levels of a body outside its binders, those below a level.
fn outside(mut used: BTreeSet<usize>, level: usize) -> BTreeSet<usize> {
    used.retain(|at| *at < level);
    used
}

// A function with marks may use no outer variable that may be used once only.
fn leave_lambda(site: Site, marks: usize, outer: BTreeSet<usize>) -> Result<BTreeSet<usize>, Halt>
    ensures { marks ≡ 0 → result ≡ Ok outer }
{
    Reason::Captures.refuse_if(marks > 0 && !outer.is_empty(), site.cell)?;
    Ok(outer)
}

/// The types that a program's nodes may claim, and those of binders in scope, the outermost first.
#[derive(Drop)]
pub struct Judge<'k> {
    heap: Global,
    kinds: &'k [Kind],
    scope: Vec<Kind>,
}

impl<'k> Judge<'k> {
    /// No binder in scope.
    pub fn new(heap: Global, kinds: &'k [Kind]) -> Judge<'k>
        ensures { vec_len result.scope ≡ 0 }
    {
        Judge {
            heap,
            kinds,
            scope: Vec::new(heap),
        }
    }

    // The type that a node claims.
    fn claimed(&self, site: Site) -> Result<&'k Kind, Fault>
        ensures { MatchResult result
            (λ _. site.claim < length self.now.kinds.now)
            (λ e. e ≡ fault ClaimOutside site.cell) }
    {
        self.kinds
            .get(site.claim)
            .ok_or(Reason::ClaimOutside.at(site.cell))
    }

    // A variable: the level of its binder, if it may be used once only.
    fn variable(&self, site: Site, index: u16) -> Result<BTreeSet<usize>, Halt>
        ensures { vec_len self.now.scope ≤ index → result ≡ Err (halt NoBinder site.cell) }
    {
        let level = self
            .scope
            .len()
            .checked_sub(index as usize + 1)
            .ok_or(Reason::NoBinder.at(site.cell))?;
        let own = &self.scope[level];
        Reason::WrongClaim.refuse_if(!is_below(own, self.claimed(site)?), site.cell)?;
        let mut used = BTreeSet::new(self.heap);
        if own.marks == 0 {
            used.insert(level)?;
        }
        Ok(used)
    }

    // A constant, which uses no variable.
    fn leaf(&self, site: Site, leaf: Constant) -> Result<BTreeSet<usize>, Halt>
        ensures { IfOk result (λ used. used.keys ≡ []) }
    {
        let is_right = is_typed(self.heap, leaf, self.claimed(site)?)?;
        Reason::WrongClaim.refuse_if(!is_right, site.cell)?;
        Ok(leaf_uses(self.heap))
    }

    // Tests a function's rule before its body, enters its binder, and answers how many marks lead
    // its claim.
    fn enter_lambda(&mut self, site: Site, body: Site) -> Result<usize, Halt>
        ensures { 32 ≤ vec_len self.old.scope → result ≡ Err (halt TooDeep site.cell) }
    {
        Reason::TooDeep.refuse_if(self.scope.len() >= MOST_BINDERS, site.cell)?;
        let claim = self.claimed(site)?;
        let body = self.claimed(body)?;
        match &claim.head {
            Head::Arrow(a, b) if same(body, b) => {
                self.scope.push(Kind::clone(a)?)?;
                Ok(claim.marks)
            }
            _ => Err(Reason::WrongClaim.at(site.cell).into()),
        }
    }

    // The rule of a split: its pair claims a pair, and its body what the node claims.
    fn test_split(&self, site: Site, pair: Site, body: Site) -> Result<(), Halt>
        ensures { 32 < vec_len self.now.scope + 2 → result ≡ Err (halt TooDeep site.cell) }
    {
        Reason::TooDeep.refuse_if(self.scope.len() + 2 > MOST_BINDERS, site.cell)?;
        let claim = self.claimed(site)?;
        let pair = self.claimed(pair)?;
        let body = self.claimed(body)?;
        match &pair.head {
            Head::Pair(_, _) if same(body, claim) => Ok(()),
            _ => Err(Reason::WrongClaim.at(site.cell).into()),
        }
    }

    // Enters the binders of a split, which have the components of its pair under the pair's marks.
    fn enter_split(&mut self, pair: Site) -> Result<(), Halt> {
        let claim = self.claimed(pair)?;
        match &claim.head {
            Head::Pair(a, b) => {
                self.scope.push(a.marked(claim.marks)?)?;
                self.scope.push(b.marked(claim.marks)?)?;
                Ok(())
            }
            _ => Err(Reason::WrongClaim.at(pair.cell).into()),
        }
    }

    // Leaves the binders from a level on, and answers which levels below it a body used.
    fn leave(&mut self, level: usize, used: BTreeSet<usize>) -> BTreeSet<usize> {
        self.scope.truncate(level);
        outside(used, level)
    }

    // The rule of an application: its function claims just what its argument and it itself claim.
    fn test_apply(&self, site: Site, function: Site, argument: Site) -> Result<(), Fault> {
        let claim = self.claimed(site)?;
        let function = self.claimed(function)?;
        let argument = self.claimed(argument)?;
        match &function.head {
            Head::Arrow(a, b) if function.marks == 0 && same(argument, a) && same(claim, b) => {
                Ok(())
            }
            _ => Err(Reason::WrongClaim.at(site.cell)),
        }
    }

    // The rule of a pair: its parts claim the components under the pair's marks.
    fn test_pair(&self, site: Site, left: Site, right: Site) -> Result<(), Halt> {
        let claim = self.claimed(site)?;
        let left = self.claimed(left)?;
        let right = self.claimed(right)?;
        match &claim.head {
            Head::Pair(a, b)
                if same(left, &a.marked(claim.marks)?) && same(right, &b.marked(claim.marks)?) => {
                Ok(())
            }
            _ => Err(Reason::WrongClaim.at(site.cell).into()),
        }
    }

    // The rule of a condition: it claims exactly a bit, and both branches what the node claims.
    fn test_choose(&self, site: Site, condition: Site, one: Site, zero: Site) -> Result<(), Fault> {
        let claim = self.claimed(site)?;
        let condition = self.claimed(condition)?;
        let one = self.claimed(one)?;
        let zero = self.claimed(zero)?;
        match condition.head {
            Head::Bit if condition.marks == 0 && same(one, claim) && same(zero, claim) => Ok(()),
            _ => Err(Reason::WrongClaim.at(site.cell)),
        }
    }

    // The rule of a node that is no function, but for what its parts use.
    fn test(&self, tree: &Tree) -> Result<(), Halt> {
        let site = tree.site;
        match &tree.node {
            Node::Apply(function, argument) => {
                Ok(self.test_apply(site, function.site, argument.site)?)
            }
            Node::Pair(left, right) => self.test_pair(site, left.site, right.site),
            Node::Split(pair, body) => self.test_split(site, pair.site, body.site),
            Node::Choose(condition, one, zero) => {
                Ok(self.test_choose(site, condition.site, one.site, zero.site)?)
            }
            _ => Ok(()),
        }
    }

    /// The levels of the variables that a tree uses and that may be used once only, or the first
    /// fault in tree order.
    pub fn judge(&mut self, tree: &Tree) -> Result<BTreeSet<usize>, Halt> {
        self.test(tree)?;
        let site = tree.site;
        let level = self.scope.len();
        match &tree.node {
            Node::Variable(index) => self.variable(site, *index),
            Node::Constant(leaf) => self.leaf(site, *leaf),
            Node::Lambda(body) => {
                let marks = self.enter_lambda(site, body.site)?;
                let used = self.judge(body)?;
                leave_lambda(site, marks, self.leave(level, used))
            }
            Node::Apply(left, right) | Node::Pair(left, right) => {
                let first = self.judge(left)?;
                apart(site, first, self.judge(right)?)
            }
            Node::Split(pair, body) => {
                let first = self.judge(pair)?;
                self.enter_split(pair.site)?;
                let used = self.judge(body)?;
                apart(site, first, self.leave(level, used))
            }
            Node::Choose(condition, one, zero) => {
                let first = self.judge(condition)?;
                let one = self.judge(one)?;
                apart(site, first, together(one, self.judge(zero)?)?)
            }
        }
    }
}
