// Reading a whole clause out of any book.
ghost use Rattle.std.specs.Prelude.{◌≡◌, ◌≤◌, length};
ghost use Rattle.books.specs.Book.{clause_at};
ghost use Rattle.books.specs.Promise.{length_answer, read_buffer};

use crate::clause_book::ClauseBook;
use clauses::Refusal;

// Reads the clause under a number to the front of `out`, a slice as clauses are everywhere, and answers how many literals it has.
pub fn read_clause<B: ClauseBook>(book: &B, number: u32, out: &mut [u32]) -> Result<usize, Refusal>
    requires { 64 ≤ length out.old }
    ensures answer { result ≡ length_answer (clause_at (B.ClauseBook.meaning book.now) number) }
    ensures buffer { out.new ≡ read_buffer (clause_at (B.ClauseBook.meaning book.now) number) out.old }
{
    let count = book.length(number)?;
    for (place, literal) in out[..count as usize].iter_mut().enumerate() {
        *literal = book.literal(number, place as u32)?;
    }
    Ok(count as usize)
}
