//! Types at places of a table, with marks in front of them.

ghost use Rattle.subtyping.specs.Placing.{Placed};

use calculus::TypeCell;
use std::default::MadeWith;

/// The type at a place of a table, with marks in front of it that need not stand there.
#[derive(Clone, Copy, Drop)]
pub struct TypeAt<'a> {
    pub types: &'a [TypeCell],
    pub marks: usize,
    pub place: usize,
    pub ghost placed: { Placed types.now marks place },
}

/// A record of types fills its places that are not in use with a type that it was given.
impl<'a> MadeWith<TypeAt<'a>> for TypeAt<'a> {
    fn made_with(blank: TypeAt<'a>) -> TypeAt<'a> {
        blank
    }
}
