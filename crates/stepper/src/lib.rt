//! Steps of running terms, on cells: the next term of a rule, and the qubits that a term names.
#![tactic(auto)]

mod naming;
mod promises;
mod writing;

pub use naming::named;
pub use promises::{cells_name_what_terms_name, samples_are_stepped, steps_are_made_on_cells};
pub use writing::{Answer, next, put_next};
