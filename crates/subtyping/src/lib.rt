//! Types that stand in tables: equality, subtyping, and their parts.
#![tactic(auto)]

mod parting;
mod placed;
mod relating;

pub use parting::Core;
pub use placed::TypeAt;
