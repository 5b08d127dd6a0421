//! Runs over piles of registers whose answers are known: each run is one equation.
#![tactic(auto)]

mod runs;

pub use runs::{run_on_cap_of_tape, run_on_caps_of_level, run_on_level, run_on_tape};
