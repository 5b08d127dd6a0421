//! Cells, pulses and the answers of calls as plain numbers, for libraries that programs in other
//! languages call.
#![tactic(auto)]

mod answers;
mod runs;
mod tables;
mod verdicts;

pub use answers::{ACCEPTED, Verdict};
pub use runs::{CAPACITY, PULSES, load_and_run, run_answer, run_verdict};
pub use tables::{
    Node, Pulse, RUNNING_PLACES, TERM_PLACES, give_terms, give_types, term_table, type_table,
};
pub use verdicts::{check_verdict, find_verdict, read_verdict, step_verdict};
