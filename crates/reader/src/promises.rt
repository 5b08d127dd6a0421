//! What holds of every read, in the words of the format.

ghost use Rattle.reader.specs.Samples.{SamplesHold};
ghost use Rattle.reader.specs.Sheet.{FirstLineAnswers};
ghost use Rattle.reader.specs.Stored.{Exact};

/// A text is accepted exactly if it is that of a program that fits, and what is written of cells is
/// read back to them.
pub fn reading_is_exact()
    ensures { Exact }
{}

/// A text is refused at the first line that a row of the sheet refuses, for the first such test of
/// that line, and is accepted exactly where no row holds.
pub fn the_first_line_answers()
    ensures { FirstLineAnswers }
{}

/// Sample texts get the answers that stand beside them.
pub fn samples_are_judged()
    ensures { SamplesHold }
{}
