//! Types of a table taken apart: marks, and what stands after them.

ghost use Rattle.std.specs.Prelude.{◌≡◌, ◌+◌, ◌≤◌, ◌⊎◌, is_some, IfSome};
ghost use Rattle.calculus.specs.Alphabet.{kind_arrow, kind_pair};
ghost use Rattle.calculus.specs.Stripping.{is_tensor};
ghost use Rattle.calculus.specs.Types.{bangs};
ghost use Rattle.subtyping.specs.Letters.{kind_of};
ghost use Rattle.subtyping.specs.Meaning.{meant, past, standing};
ghost use Rattle.subtyping.specs.Parting.{Apart, Components, PartsStand};

use crate::placed::TypeAt;
use calculus::MOST_TYPE_CELLS;
use trees::reach;

/// What stands after the marks of a type.
#[derive(Clone, Copy, Drop)]
pub enum Core<'a> {
    Bit,
    Qubit,
    Unit,
    Arrow(TypeAt<'a>, TypeAt<'a>),
    Pair(TypeAt<'a>, TypeAt<'a>),
}

impl<'a> TypeAt<'a> {
    // One past the type.
    fn past(self) -> usize
        ensures { result ≡ past self.entry }
    {
        reach(self.types, self.place).unwrap()
    }

    // The two parts of an arrow or a pair, one after the other.
    fn parts(self) -> (TypeAt<'a>, TypeAt<'a>)
        requires { (kind_of (standing self) ≡ kind_arrow)
            ⊎ (kind_of (standing self) ≡ kind_pair) }
        ensures { PartsStand self.entry.types.now self.entry.place result.0 result.1 }
    {
        let first = self.next();
        (first, self.at(first.past()))
    }

    /// The type taken apart: its marks counted, and what stands after them.
    pub fn take_apart(self) -> (usize, Core<'a>)
        ensures { Apart self.entry result }
    {
        let (marks, core) = self.strip();
        let core = match core.kind() {
            'b' => Core::Bit,
            'q' => Core::Qubit,
            '>' => {
                let (argument, result) = core.parts();
                Core::Arrow(argument, result)
            }
            '*' => {
                let (left, right) = core.parts();
                Core::Pair(left, right)
            }
            _ => Core::Unit,
        };
        (marks, core)
    }

    // The type with so many more marks in front of it.
    fn marked(self, marks: usize) -> TypeAt<'a>
        requires { self.marks + marks ≤ MOST_TYPE_CELLS + self.place }
        ensures count { result.marks ≡ self.entry.marks + marks }
        ensures stands { (result.types.now ≡ self.entry.types.now)
            × (result.place ≡ self.entry.place) }
        ensures meant { meant result ≡ bangs marks (meant self.entry) }
    {
        TypeAt {
            types: self.types,
            marks: self.marks + marks,
            place: self.place,
        }
    }

    /// The components of a pair, each after the marks of the whole, or nothing for what is no pair.
    pub fn components(self) -> Option<(TypeAt<'a>, TypeAt<'a>)>
        ensures pair { is_some result ≡ is_tensor (meant self.entry) }
        ensures components { IfSome result (λ p. Components self.entry p.0 p.1) }
    {
        let (marks, core) = self.take_apart();
        match core {
            Core::Pair(left, right) => Some((left.marked(marks), right.marked(marks))),
            _ => None,
        }
    }
}
