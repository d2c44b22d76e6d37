// What the referee promises: plans, dockets, calls, and the law of every run.
#![tactic(auto)]

pub mod law;
pub mod standing;

pub use standing::Standing;
