//! Programs to run interpreters on: drawn at random by the typing rules, and damaged.
#![tactic(auto)]

mod any;
mod damage;
mod intro;
mod makers;
mod random;
mod sides;

pub use damage::{any_running, damage_cells, damage_text};
pub use makers::any_program;
pub use random::Random;
