//! Registers of qubits: the calls that every register has, with their meaning, and three registers.
#![tactic(auto)]

mod cap;
mod fault;
mod handles;
mod journal;
mod level;
mod places;
mod promises;
mod register;
mod tape;

pub use cap::Cap;
pub use fault::{RegisterFault, RegisterReason};
pub use journal::Entry;
pub use level::Level;
pub use promises::{
    cap_is_settled, caps_merge, depths_are_counted, each_pulse_is_written, level_is_settled,
    level_reads_what_was_put, next_is_found, pulses_are_spent, refusals_are_exact, room_is_kept,
    tape_is_settled,
};
pub use register::Register;
pub use tape::Tape;
