//! A second interpreter of the quantum lambda calculus, on boxed trees with named variables. It
//! shares no code with the first but the cells and the numbers of the limits, so that the two can
//! be run against each other.
#![tactic(auto)]

mod halt;
mod judge;
mod listing;
mod nodes;
mod seeks;
mod shots;
mod steps;
mod tables;
mod tape;
mod terms;
mod texts;

pub use seeks::SecondRule;
pub use shots::{second_check, second_find, second_shot};
