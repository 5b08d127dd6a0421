//! Terms drawn at random by the typing rules, from the root down, with a claim at each node.

ghost use Rattle.std.specs.Prelude.{◌≡◌, ◌+◌, vec_len, IfOk, OnOk};
ghost use Rattle.calculus.specs.Types.{arrow as arrow_type};
ghost use Rattle.kinds.specs.Kinds.{kind_type};

use crate::any::{any_kind, any_pair};
use crate::random::Random;
use crate::sides::{Side, beside};
use drafts::Draft;
use kinds::{Head, Kind, is_below, same};
use std::alloc::{AllocError, Global};
use std::collections::BTreeSet;
use std::mem;

// What is left to be made.
#[derive(Drop)]
pub(crate) enum Task {
    // A term of a type, with so much fuel for its parts.
    Make(Kind, u32),
    // The binders of a split of a pair type.
    Bind(Kind),
    // The end of binders, down to so many.
    Leave(usize),
    // The variables that were spent before a function with marks.
    Reopen(BTreeSet<usize>),
    // Before the branches of a condition, between them, and after.
    Fork,
    Turn,
    Join,
}

// A program in the making.
#[derive(Drop)]
pub(crate) struct Maker<'r> {
    pub(crate) heap: Global,
    pub(crate) random: &'r mut Random,
    pub(crate) draft: Draft,
    // The types of the variables in scope, the outermost first, and the levels of the spent ones.
    pub(crate) scope: Vec<Kind>,
    pub(crate) spent: BTreeSet<usize>,
    // Of each open condition what was spent before its branches, and from the second one on what
    // its first branch left spent.
    pub(crate) forks: Vec<BTreeSet<usize>>,
    // The next task stands last.
    pub(crate) tasks: Vec<Task>,
    // The fuel of the parts of the term that is being made.
    pub(crate) fuel: u32,
    // Whether spent variables may be used again, and variables at types that theirs are not below.
    pub(crate) is_careless: bool,
}

// The type of functions from one type to another, without marks.
pub(crate) fn arrow(heap: Global, from: &Kind, to: &Kind) -> Result<Kind, AllocError>
    ensures { IfOk result (λ k. kind_type k
        ≡ arrow_type (kind_type from.now) (kind_type to.now)) }
{
    Kind::arrow(heap, 0, from.clone()?, to.clone()?)
}

impl<'r> Maker<'r> {
    pub(crate) fn emit(&mut self, op: char, argument: u16, kind: &Kind) -> Result<(), AllocError> {
        let claim = if self.random.chance(4) && self.draft.types.len() < 150 {
            self.draft.new_place(kind)?
        } else {
            self.draft.place(kind)?
        };
        self.draft.cell(op, argument, claim)
    }

    pub(crate) fn due(&mut self, kind: &Kind) -> Result<(), AllocError>
        ensures { OnOk result (vec_len self.new.tasks ≡ vec_len self.old.tasks + 1) }
    {
        self.tasks.push(Task::Make(kind.clone()?, self.fuel))?;
        Ok(())
    }

    // A term of a type under more marks is due.
    pub(crate) fn due_marked(&mut self, kind: &Kind, more: usize) -> Result<(), AllocError> {
        self.due(&kind.marked(more)?)
    }

    // Brings a variable into scope, of a type under more marks.
    pub(crate) fn enter(&mut self, own: &Kind, more: usize) -> Result<(), AllocError> {
        self.scope.push(own.marked(more)?)?;
        Ok(())
    }

    // A variable in scope that may be used at a type, one of several at random.
    fn pick(&mut self, kind: &Kind) -> Option<usize> {
        let (spent, is_careless) = (&self.spent, self.is_careless);
        let usable = self.scope.iter().enumerate().filter(|(level, own)| {
            (is_careless || own.marks > 0 || !spent.contains(level)) && is_below(own, kind)
        });
        let mut found = None;
        for (seen, (level, _)) in usable.enumerate() {
            if self.random.below(seen.saturating_add(1)) == 0 {
                found = Some(level);
            }
        }
        found
    }

    fn variable(&mut self, level: usize, kind: &Kind) -> Result<(), AllocError> {
        self.spent.insert(level)?;
        let index = self.scope.len().saturating_sub(level).saturating_sub(1);
        self.emit('v', u16::try_from(index).unwrap_or(0), kind)
    }

    // The argument type of a function in scope that has a result, or one at random.
    fn argument(&mut self, res: &Kind) -> Result<Kind, AllocError> {
        for own in self.scope.iter() {
            if let Head::Arrow(a, b) = &own.head {
                if same(b, res) && self.random.chance(60) {
                    return Kind::clone(a);
                }
            }
        }
        let is_deeper = !self.random.chance(60);
        any_kind(self.random, self.heap, u32::from(is_deeper), true)
    }

    // A function applied to an argument of a type.
    fn apply(&mut self, kind: &Kind, argument: &Kind) -> Result<(), AllocError> {
        self.emit('a', 0, kind)?;
        self.due(argument)?;
        let function = arrow(self.heap, argument, kind)?;
        self.due(&function)
    }

    // A term of a type through a function whose variable is of a type below, or above where that
    // may be.
    fn pass(&mut self, kind: &Kind) -> Result<(), AllocError> {
        let is_above = self.is_careless && self.random.chance(30);
        let side = if is_above { Side::Above } else { Side::Below };
        let own = beside(self.heap, self.random, side, kind)?;
        self.emit('a', 0, kind)?;
        let function = arrow(self.heap, &own, kind)?;
        self.emit('l', 0, &function)?;
        self.emit('v', 0, kind)?;
        self.due(&own)
    }

    // A pair of a type, split into its components.
    fn split(&mut self, kind: &Kind, pair: &Kind) -> Result<(), AllocError> {
        self.emit('d', 0, kind)?;
        self.tasks.push(Task::Leave(self.scope.len()))?;
        self.due(kind)?;
        self.tasks.push(Task::Bind(pair.clone()?))?;
        self.due(pair)
    }

    // Brings the components of a pair into scope, under the marks of the pair.
    fn bind(&mut self, pair: &Kind) -> Result<(), AllocError> {
        if let Head::Pair(a, b) = &pair.head {
            self.enter(a, pair.marks)?;
            self.enter(b, pair.marks)?;
        }
        Ok(())
    }

    fn choose(&mut self, kind: &Kind) -> Result<(), AllocError> {
        self.emit('i', 0, kind)?;
        self.tasks.push(Task::Join)?;
        self.due(kind)?;
        self.tasks.push(Task::Turn)?;
        self.due(kind)?;
        self.tasks.push(Task::Fork)?;
        self.due(&Head::Bit.marked(0))
    }

    // Emits the root of a term and leaves its parts to be made.
    fn make(&mut self, kind: &Kind, fuel: u32) -> Result<(), AllocError> {
        if self.random.chance(65) {
            if let Some(level) = self.pick(kind) {
                return self.variable(level, kind);
            }
        }
        self.fuel = fuel.saturating_sub(1);
        if fuel == 0 {
            return self.introduce(kind);
        }
        // Types beside others make the table long.
        let is_passed = self.draft.types.len() < 90;
        let is_arrow = matches!(kind.head, Head::Arrow(_, _));
        match self.random.below(if is_arrow { 12 } else { 9 }) {
            0 | 1 => {
                let argument = self.argument(kind)?;
                self.apply(kind, &argument)
            }
            2 | 3 => {
                let pair = any_pair(self.random, self.heap)?;
                self.split(kind, &pair)
            }
            4 => self.choose(kind),
            5 | 9.. if is_passed => self.pass(kind),
            _ => self.introduce(kind),
        }
    }

    fn perform(&mut self, task: Task) -> Result<(), AllocError> {
        match task {
            Task::Make(kind, fuel) => self.make(&kind, fuel)?,
            Task::Bind(pair) => self.bind(&pair)?,
            Task::Leave(level) => {
                self.scope.truncate(level);
                self.spent.retain(|at| *at < level);
            }
            Task::Reopen(spent) => self.spent = spent,
            Task::Fork => self.forks.push(self.spent.clone()?)?,
            Task::Turn => {
                if let Some(before) = self.forks.pop() {
                    self.forks.push(mem::replace(&mut self.spent, before))?;
                }
            }
            Task::Join => {
                if let Some(mut one) = self.forks.pop() {
                    self.spent.append(&mut one)?;
                }
            }
        }
        Ok(())
    }
}

/// A program whose claims follow the typing rules. A careless one may use a variable more often
/// than it may, or at a type that its own is not below.
pub fn any_program(
    heap: Global,
    random: &mut Random,
    is_careless: bool,
) -> Result<Draft, AllocError> {
    let depth = if random.chance(50) { 1 } else { 2 };
    let root = any_kind(random, heap, depth, true)?;
    let fuel = if random.chance(50) { 4 } else { 6 };
    let mut maker = Maker {
        heap,
        random,
        draft: Draft::new(heap),
        scope: Vec::new(heap),
        spent: BTreeSet::new(heap),
        forks: Vec::new(heap),
        tasks: Vec::new(heap),
        fuel,
        is_careless,
    };
    maker.due(&root)?;
    for _ in 0..2000 {
        let Some(task) = maker.tasks.pop() else {
            break;
        };
        maker.perform(task)?;
    }
    Ok(maker.draft)
}
