//! Rows played on a new controller. The turns are given as data, each is one call, and each has its
//! reply.
#![tactic(auto)]

mod playing;
#[cfg(test)]
mod tests;
mod turns;

pub use playing::play;
pub use turns::{Done, Reply, Turn, TurnFault};
