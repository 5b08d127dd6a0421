//! What holds of every search. Each function stands for a theorem, which its contract states.

ghost use Rattle.finder.specs.Laws.{SearchIsReduction};
ghost use Rattle.finder.specs.Samples.{SamplesHold};
ghost use Rattle.finder.specs.Sheet.{FirstRowAnswers};

/// The finder answers nothing exactly for values, and a rule and a cell exactly where the calculus
/// makes a step. For the other terms it answers the cell where the search ends.
pub fn search_is_reduction()
    ensures { SearchIsReduction }
{}

/// The finder refuses by the first row of its sheet that holds, at the cell that the row names, and
/// answers a value or a step exactly where none holds.
pub fn the_first_row_answers()
    ensures { FirstRowAnswers }
{}

/// Short running terms get the answers that stand beside them.
pub fn samples_are_answered()
    ensures { SamplesHold }
{}
