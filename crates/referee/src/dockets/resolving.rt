// The resolvent of two clauses of a book.
ghost use Rattle.std.specs.Prelude.{◌≡◌, length};
ghost use Rattle.books.specs.Book.{clause_at};
ghost use Rattle.model.specs.Calls.{resolvent_of};
ghost use Rattle.referee.specs.Resolving.{taken, Within};

use books::{ClauseBook, read_clause};
use clauses::Refusal;
use clauses::joining::join;
use clauses::limits::MAX_LITERALS;

// Reads and joins the clauses under two numbers; answers how many literals the front of `out` has then.
pub(crate) fn resolvent<B: ClauseBook>(
    book: &B,
    left: u32,
    right: u32,
    out: &mut [u32; 128],
) -> Result<usize, Refusal>
    ensures answer { taken result out.new ≡ resolvent_of (clause_at (B.ClauseBook.meaning book.now) left) (clause_at (B.ClauseBook.meaning book.now) right) }
    ensures within { Within result (length out.new) }
{
    // Local buffers and lengths: both clauses are read into slices and joined as slices.
    let mut lefts = [0; MAX_LITERALS];
    let mut rights = [0; MAX_LITERALS];
    let left_count = read_clause(book, left, &mut lefts)?;
    let right_count = read_clause(book, right, &mut rights)?;
    join(&lefts[0..left_count], &rights[0..right_count], out)
}
