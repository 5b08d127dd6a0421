//! A stored program as a reader of it wants to see it: its term, a row for each cell, and the
//! verdict.
#![tactic(auto)]

mod bytes;
mod cells;
mod depths;
mod judged;
mod judging;
mod layout;
mod lines;
mod misread;
mod reasons;
mod rows;
mod rules;
#[cfg(test)]
mod tests;
mod verdicts;
mod viewing;

pub use judged::{Judged, Verdict};
pub use judging::judge;
pub use viewing::view;
