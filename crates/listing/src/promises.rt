//! What holds of every listing, in the words of its format. Each function stands for a theorem: its
//! contract is the theorem's statement.

ghost use Rattle.listing.specs.Back.{ReadBack};
ghost use Rattle.listing.specs.Samples.{SamplesAreListed};
ghost use Rattle.listing.specs.Shapes.{ListingsHaveShapes};
ghost use Rattle.listing.specs.Shots.{TextsAreListed};

/// Sample runs have the listings that stand beside them.
pub fn samples_are_listed()
    ensures { SamplesAreListed }
{}

/// A listing of a calculus' letters and 64-bit numbers is read back from its text, line for line
/// and field for field.
pub fn listings_are_read_back()
    ensures { ReadBack }
{}

/// Sample texts have the listings that stand beside them.
pub fn texts_are_listed()
    ensures { TextsAreListed }
{}

/// Every listing has one of four shapes, and T and M stand only for a value.
pub fn listings_have_shapes()
    ensures { ListingsHaveShapes }
{}
