// Texts: a reader that goes through one with its place, numbers in decimal, and the lines of a text with their form.
#![tactic(auto)]

pub mod lines;
pub mod numbers;
pub mod reader;

pub use lines::{Line, PlanKind, read_line};
pub use numbers::number;
pub use reader::Reader;
