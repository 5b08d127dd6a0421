//! Programs written cell by cell, and programs that meet a limit or pass it by little.
#![tactic(auto)]

mod draft;
mod limits;
mod runs;

pub use draft::{Draft, as_claim};
pub use limits::{binders, long_line, marks, term_cells, type_cells};
pub use runs::{applied_copies, doublings, entangled, pulses, rounds, split_copies, turns};
