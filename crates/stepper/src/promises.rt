//! What holds of the next term on cells, and of the qubits that cells name. Each function stands
//! for a theorem: its contract is the theorem's statement.

ghost use Rattle.stepper.specs.Laws.{StepLaws};
ghost use Rattle.stepper.specs.Names.{NamesLaws};
ghost use Rattle.stepper.specs.Samples.{SamplesHold};

/// Steps of the calculus are made on cells.
pub fn steps_are_made_on_cells()
    ensures { StepLaws }
{}

/// The cells of a running term name the qubits that the term names.
pub fn cells_name_what_terms_name()
    ensures { NamesLaws }
{}

/// Short running terms become what stands beside them.
pub fn samples_are_stepped()
    ensures { SamplesHold }
{}
