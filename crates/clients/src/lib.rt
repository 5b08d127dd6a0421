//! Code on both sides of the trait `Register`: a function that works at every register, and a
//! register of one qubit.
#![tactic(auto)]

mod kinds;
mod one_qubit;
#[cfg(test)]
mod tests;
mod uses;

pub use kinds::{prepare_and_read_on_level, prepare_and_read_on_tape};
pub use one_qubit::OneQubit;
pub use uses::prepare_and_read;
