//! The library for programs that are not Rattle's: reading, checking, finding, the next term and
//! whole runs, over tables of plain numbers. `ql.h` declares its calls for C.
#![tactic(auto)]

mod checking;
mod reading;
mod shots;
mod stepping;

pub use checking::ql_check;
pub use numbers::{Node, Pulse, Verdict};
pub use reading::ql_read;
pub use shots::ql_run;
pub use stepping::{ql_find, ql_next};
