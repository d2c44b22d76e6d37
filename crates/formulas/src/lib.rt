// Formula texts: read left to right into the gates and the root of a plan.
#![tactic(auto)]

mod parts;
pub mod reading;
mod signs;

pub use reading::{formula, formula_of};
