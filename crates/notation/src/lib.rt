//! Types and terms as they are written on paper, from the cells of tables, damaged ones too.
#![tactic(auto)]

mod brackets;
mod leaves;
mod promises;
mod terms;
mod types;

pub use brackets::Around;
pub use promises::trees_are_those_of_the_calculus;
pub use terms::push_term;
pub use types::push_type;
