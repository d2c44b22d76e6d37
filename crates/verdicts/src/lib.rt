// The two ends of judging: a setting given by digits, packed; and the verdict line.
#![tactic(auto)]

pub mod digits;
pub mod verdict_line;

pub use verdict_line::Verdict;
