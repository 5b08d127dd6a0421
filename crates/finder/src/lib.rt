//! The finder: which rule applies to a running term, and at which of its cells.
#![tactic(auto)]

mod faults;
mod finder;
mod promises;
mod rules;

pub use faults::{FindFault, FindReason};
pub use finder::find;
pub use promises::{samples_are_answered, search_is_reduction, the_first_row_answers};
pub use rules::Rule;
