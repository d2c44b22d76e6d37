// The verdict line on a text, with a new book of the largest sizes.
ghost use Rattle.std.specs.Prelude.{Some};
ghost use Rattle.judge.specs.VerdictLines.{LineSays, words_of};

use crate::judging::judge;
use books::NewBook;
use books::clause_book::{MAX_CELLS, MAX_NUMBERS};
use clauses::few::Few;
use std::alloc::Global;
use std::error::Error;
use std::fmt;

// What there was no memory for.
#[derive(Clone, Copy, PartialEq, Eq, Debug)]
pub enum NoMemory {
    ForBook,
    ForPlan,
}

impl fmt::Display for NoMemory {
    ghost output = { λ e. Some (words_of e) };

    fn fmt<W: fmt::Write>(&self, f: &mut fmt::Formatter<W>) -> fmt::Result {
        f.write_str(match self {
            NoMemory::ForBook => "no memory for the book",
            NoMemory::ForPlan => "no memory for the plan",
        })
    }
}

impl Error for NoMemory {}

// The line of the verdict on a text with a new book.
pub fn verdict_line<B: NewBook + Drop>(heap: Global, text: &[u8]) -> Result<Few<u8, 32>, NoMemory>
    ensures { LineSays text.now result }
{
    let book = B::new(heap, MAX_NUMBERS, MAX_CELLS).map_err(|_| NoMemory::ForBook)?;
    let mut buffer = [0; 32];
    let (length, _) = judge(heap, text, book, &mut buffer).map_err(|_| NoMemory::ForPlan)?;
    let mut line = Few::new();
    line.extend_from_slice(&buffer[..length]);
    Ok(line)
}
