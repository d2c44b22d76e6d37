// Plans: the calls that make one, its value under a setting, and its clauses written into a book.
#![tactic(auto)]

pub mod demands;
pub mod operands;
pub mod plans;
pub mod settings;
mod sinks;
pub mod writing;

pub use plans::Plan;
