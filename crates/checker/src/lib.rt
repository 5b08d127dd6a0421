//! The checker: cells to an accepted program, or a fault with its number and its cell.
#![tactic(auto)]

mod accepting;
mod judging;
mod leaving;
mod program;
mod rules;
mod scope;
mod tables;
mod used;

pub use accepting::{Accepted, check, checking_is_exact, the_first_row_answers};
pub use verdict::{CheckFault, CheckReason};
