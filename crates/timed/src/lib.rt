//! The calls that the benchmark times: the work of the exported library's calls, made so many times
//! over cells that are turned from numbers once. Each answers the sum of the verdicts, so that what
//! was timed can be compared.
#![tactic(auto)]

mod calls;
mod repeating;
mod shots;

pub use calls::{timed_check, timed_find, timed_next, timed_read};
pub use shots::{timed_run, timed_shot};
