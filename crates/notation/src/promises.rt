//! What holds of the trees that are shown.

ghost use Rattle.notation.specs.Calculus.{TreesAreMeant};

/// The cells of a type or of a term of the calculus make its own tree: that type, that term is
/// shown.
pub fn trees_are_those_of_the_calculus()
    ensures { TreesAreMeant }
{}
