// The vocabulary that every crate shares: literals, clauses, limits and refusals.
#![tactic(auto)]

pub mod buffers;
pub mod few;
pub mod joining;
pub mod limits;
pub mod literals;
pub mod refusals;

pub use refusals::{Answer, Refusal};
