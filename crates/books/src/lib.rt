// Clause books: what every book promises, the two books that keep it, and reading a clause out of any of them.
#![tactic(auto)]

mod cells;
pub mod chained;
pub mod clause_book;
mod numbers;
pub mod packed;
pub mod reading;
pub mod spans;

pub use chained::ChainedBook;
pub use clause_book::{ClauseBook, NewBook};
pub use packed::PackedBook;
pub use reading::read_clause;
