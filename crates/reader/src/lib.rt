//! Reads a stored program: the lines of a text, told apart by section and letter, fill a type table
//! and a term table.
#![tactic(auto)]

mod cells;
mod faults;
mod lines;
mod numbers;
mod parts;
mod promises;
mod reading;
mod sections;

pub use faults::{ReadFault, ReadReason};
pub use promises::{reading_is_exact, samples_are_judged, the_first_line_answers};
pub use reading::read;
