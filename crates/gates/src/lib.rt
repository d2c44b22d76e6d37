// Gate kinds and their law, the value of nodes, and the clauses of a gate.
#![tactic(auto)]

pub mod gate_clauses;
pub mod kinds;
pub mod nodes;
pub mod records;
pub mod two_input;
pub mod wide;

pub use gate_clauses::fill_clause;
pub use kinds::{GateKind, Slot, SlotLiteral};
pub use nodes::evaluate;
pub use records::NodeRecord;
pub use two_input::TwoInput;
pub use wide::Wide;

#[cfg(test)]
mod tests;
