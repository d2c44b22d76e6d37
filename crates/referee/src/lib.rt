// Dockets on clause books, their calls, and the law of every run on them.
#![tactic(auto)]

pub mod dockets;
pub mod law;

pub use dockets::{Call, Docket};
