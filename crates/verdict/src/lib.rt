//! The verdict on a program: its faults, and the judging of a term as a definition on trees, with
//! what it decides.
#![tactic(auto)]

mod deciding;
mod faults;

pub use deciding::{
    acceptance_is_derivability, acceptance_is_derivability_below, the_first_row_answers,
    uses_are_free,
};
pub use faults::{CheckFault, CheckReason};
