// From a text to the verdict line.
#![tactic(auto)]

pub mod judging;
mod numbered;
mod planning;
mod steps;
pub mod verdict_lines;

pub use judging::judge;
pub use verdict_lines::verdict_line;
pub use verdicts::Verdict;
