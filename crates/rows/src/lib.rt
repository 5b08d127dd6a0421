//! Rows of calls of a controller over any register: what each call does, and what holds at every
//! place. Each function stands for a theorem: its contract is the theorem's statement, for every
//! kind of register with contents of its type parameter.
#![tactic(auto)]

ghost use Rattle.rows.specs.Sound.{EveryPlaceIsSound};
ghost use Rattle.rows.specs.Bounds.{EveryPlaceIsBounded};
ghost use Rattle.rows.specs.Making.{EveryRowIsMade, EveryAnswerIsServed, StepsAreExact};
ghost use Rattle.rows.specs.Sample.{SampleRow};
ghost use Rattle.rows.specs.Unsound.{UnsoundPlaces};
ghost use Rattle.rows.specs.Refusals.{RefusedStays, SampleRefusals};
ghost use Rattle.rows.specs.Runs.{RunsAreSteps};

/// From a new controller, whatever the row, every place is sound. The live qubits are exactly those
/// that the running term names, and the term has its loaded type. A step of what is no value, with
/// a work table that is long enough, is refused for want of cells, of a pulse or of room alone.
pub fn every_place_is_sound<Content>()
    ensures { EveryPlaceIsSound Content }
{}

/// At every place, cells, handles, gates and live qubits are within their limits.
pub fn every_place_is_bounded<Content>()
    ensures { EveryPlaceIsBounded Content }
{}

/// Every list of members is a row from a new controller.
pub fn every_row_is_made<Content>()
    ensures { EveryRowIsMade Content }
{}

/// A step that is not refused goes on with every answer that the register may give.
pub fn every_answer_is_served<Content>()
    ensures { EveryAnswerIsServed Content }
{}

/// Nothing of a step is free but the register's answer.
pub fn steps_are_exact<Content>()
    ensures { StepsAreExact Content }
{}

/// A row of four members goes through the five places that it should, and some places are not
/// sound: each claim is missed by one at which the others hold.
pub fn sample_row_is_made()
    ensures row { SampleRow }
    ensures unsound { UnsoundPlaces }
{}

/// A member that is refused changes nothing.
pub fn refused_members_change_nothing<Content>()
    ensures { RefusedStays Content }
{}

/// Each row of the sheet of refusals but 37 answers at a sample place, by its number.
pub fn sample_refusals_answer()
    ensures { SampleRefusals }
{}

/// A run of no budget stays; one of more stops at once, or is a step and a run of one less.
pub fn runs_are_their_steps<Content>()
    ensures { RunsAreSteps Content }
{}
