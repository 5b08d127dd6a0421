//! The controller: a program is loaded, run a step at a time on a register, and its value
//! collected.
#![tactic(auto)]

mod asking;
mod control;
mod ending;
mod faults;
mod loading;
mod promises;
mod shot;
mod steps;

pub use control::Controller;
pub use faults::{ControllerFault, Refusal, Stop};
pub use promises::every_controller_is_sound;
