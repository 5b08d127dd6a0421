//! The letters and cells of the quantum lambda calculus, its gates and its limits. Theorems say
//! what cells mean, and that the calculus is safe.
#![tactic(auto)]

mod cells;
mod gates;
mod limits;
mod meaning;
mod ops;
mod safety;

pub use cells::{TermCell, TypeCell};
pub use gates::{Gate, UnknownGate};
pub use limits::{HANDLES, MOST_BINDERS, MOST_RUNNING_CELLS, MOST_TERM_CELLS, MOST_TYPE_CELLS};
pub use meaning::{cells_are_read, same_is_exact, subtype_is_exact};
pub use ops::{OpShape, is_allowed, kind_parts, op_shape};
pub use safety::{
    claims_may_be_forgotten, duplicable_values_name_none, gates_are_apart, no_way_names_twice,
    requests_are_one, runs_are_safe, samples_are_judged, steps_are_determined, subtyping_is_lawful,
    terms_go_on, terms_keep_their_type, typing_is_lawful, values_rest,
};
