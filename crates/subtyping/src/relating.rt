//! Types at places of tables, what they begin with, and the two relations between them: equality
//! and subtyping.

ghost use Rattle.std.specs.Prelude.{◌≡◌, ◌+◌, ◌<◌, length};
ghost use Rattle.calculus.specs.Stripping.{marks, same, subtype};
ghost use Rattle.subtyping.specs.Letters.{kind_of};
ghost use Rattle.subtyping.specs.Meaning.{Bare, Stripped, meant, standing};
ghost use Rattle.subtyping.specs.Placing.{Placed};
ghost use Rattle.subtyping.specs.Relating.{Asked, equality, subtyping, marks_agree, related_at};

use crate::placed::TypeAt;
use calculus::TypeCell;

/// What is asked of two types.
pub trait Relation {
    ghost asked: { Asked };

    // Whether so many marks before a type go with so many before the other.
    fn marks_agree(left: usize, right: usize) -> bool
        ensures { result ≡ marks_agree asked left right };
}

/// They are equal.
pub struct Equal;

impl Relation for Equal {
    ghost asked = { equality };

    fn marks_agree(left: usize, right: usize) -> bool {
        left == right
    }
}

/// The first is a subtype of the second.
pub struct Subtype;

impl Relation for Subtype {
    ghost asked = { subtyping };

    fn marks_agree(left: usize, right: usize) -> bool {
        right == 0 || left > 0
    }
}

impl<'a> TypeAt<'a> {
    /// The type at a place of a table, as it stands.
    pub fn new(types: &'a [TypeCell], place: usize) -> TypeAt<'a>
        requires { Placed types.now 0 place }
        ensures { Bare types.now place result }
    {
        TypeAt {
            types,
            marks: 0,
            place,
        }
    }

    // The type at another place of the table, as it stands.
    pub(crate) fn at(self, place: usize) -> TypeAt<'a>
        requires { place < length self.types.now }
        ensures { Bare self.entry.types.now place result }
    {
        TypeAt::new(self.types, place)
    }

    // The type at the next place, as it stands.
    pub(crate) fn next(self) -> TypeAt<'a>
        requires { self.place + 1 < length self.types.now }
        ensures { Bare self.entry.types.now (self.entry.place + 1) result }
    {
        self.at(self.place + 1)
    }

    /// The letter that the type begins with.
    pub fn kind(self) -> char
        ensures { result ≡ kind_of (meant self.entry) }
    {
        if self.marks > 0 {
            return '!';
        }
        self.types[self.place].kind
    }

    // The leading marks that stand in the table, counted.
    fn standing_marks(self) -> usize
        ensures count { result ≡ marks (standing self.entry) }
        ensures within { self.entry.place + result < length self.entry.types.now }
    {
        self.types[self.place..]
            .iter()
            .take_while(|cell| cell.kind == '!')
            .count()
    }

    // All the leading marks counted, and the type after them.
    pub(crate) fn strip(self) -> (usize, TypeAt<'a>)
        ensures { Stripped self.entry result }
    {
        let marks = self.standing_marks();
        (self.marks + marks, self.at(self.place + marks))
    }

    /// Whether two types are equal.
    pub fn is_same(self, other: TypeAt<'_>) -> bool
        ensures { result ≡ same (meant self.entry) (meant other.entry) }
    {
        relate::<Equal>(self, other).is_some()
    }

    /// Whether the type is a subtype of another, which may stand in another table.
    pub fn is_subtype(self, other: TypeAt<'_>) -> bool
        ensures { result ≡ subtype (meant self.entry) (meant other.entry) }
    {
        relate::<Subtype>(self, other).is_some()
    }
}

// One past both types where the first has the relation to the second, or nothing.
fn relate<R: Relation>(left: TypeAt<'_>, right: TypeAt<'_>) -> Option<(usize, usize)>
    ensures { result ≡ related_at R.asked left.entry right.entry }
{
    let (left_marks, left) = left.strip();
    let (right_marks, right) = right.strip();
    let kind = left.kind();
    if !R::marks_agree(left_marks, right_marks) || kind != right.kind() {
        return None;
    }
    match kind {
        '>' => {
            let (right_end, left_end) = relate::<R>(right.next(), left.next())?;
            relate::<R>(left.at(left_end), right.at(right_end))
        }
        '*' => {
            let (left_end, right_end) = relate::<R>(left.next(), right.next())?;
            relate::<R>(left.at(left_end), right.at(right_end))
        }
        _ => Some((left.place + 1, right.place + 1)),
    }
}
