// What every clause book promises: clauses kept under numbers, within two sizes.
ghost use Rattle.std.specs.Prelude.{◌≡◌};
ghost use Rattle.books.specs.Book.{Book, given, clause_at, free_numbers, free_cells, written, struck};
ghost use Rattle.books.specs.Promise.{Made, Sized, granted, sizes_answer, room_answer, write_answer, length_answer, literal_answer, strike_answer};
ghost use Rattle.books.specs.BookLaw.{BookLaw};

use clauses::Refusal;
use clauses::limits::MAX_LITERALS;
use std::alloc::Global;

// A book gives at most this many numbers.
pub const MAX_NUMBERS: u32 = 2048;
// The standing clauses of a book hold at most this many literals together.
pub const MAX_CELLS: u32 = 6144;

// Refuses sizes past what a book may have.
pub fn check_sizes(numbers: u32, cells: u32) -> Result<(), Refusal>
    ensures { result ≡ sizes_answer numbers cells }
{
    if numbers > MAX_NUMBERS || cells > MAX_CELLS {
        return Err(Refusal::Size);
    }
    Ok(())
}

// Refuses a clause that is too long, or for which no number or too few cells are free.
pub fn check_room(length: usize, free_numbers: u32, free_cells: u32) -> Result<(), Refusal>
    ensures { result ≡ room_answer free_numbers free_cells length }
{
    if length > MAX_LITERALS {
        return Err(Refusal::LongClause);
    }
    if free_numbers == 0 || (free_cells as usize) < length {
        return Err(Refusal::BookFull);
    }
    Ok(())
}

// A book is known by its meaning; a refused call leaves the meaning as it was.
pub trait ClauseBook {
    ghost meaning: { Self → Book };

    // Keeps a list of literal codes as it comes, under the next number, which it answers.
    fn write(&mut self, literals: &[u32]) -> Result<u32, Refusal>
        ensures answer { result ≡ write_answer (meaning self.old) literals.now }
        ensures after { meaning self.new ≡ granted result (written (meaning self.old) literals.now) (meaning self.old) };

    // How many literals the clause under a number has.
    fn length(&self, number: u32) -> Result<u32, Refusal>
        ensures { result ≡ length_answer (clause_at (meaning self.now) number) };

    // The literal at a place, from 0, of the clause under a number.
    fn literal(&self, number: u32, place: u32) -> Result<u32, Refusal>
        ensures { result ≡ literal_answer (clause_at (meaning self.now) number) place };

    // Removes the clause under a number; the number is not given again.
    fn strike(&mut self, number: u32) -> Result<(), Refusal>
        ensures answer { result ≡ strike_answer (clause_at (meaning self.old) number) }
        ensures after { meaning self.new ≡ granted result (struck (meaning self.old) number) (meaning self.old) };

    // How many numbers were given so far.
    fn given(&self) -> u32
        ensures { result ≡ given (meaning self.now) };

    // How many numbers can still be given.
    fn free_numbers(&self) -> u32
        ensures { result ≡ free_numbers (meaning self.now) };

    // How many literals can still be kept.
    fn free_cells(&self) -> u32
        ensures { result ≡ free_cells (meaning self.now) };

    ghost sized: { (s : Self) → Sized (meaning s) };
}

// A book that can be made of two sizes; a book that is made otherwise needs no such instance.
pub trait NewBook: ClauseBook {
    // An empty book that gives up to `numbers` numbers and keeps up to `cells` literals: two numbers and no struct, which callers
    // would only make to take it apart.
    fn new(heap: Global, numbers: u32, cells: u32) -> Result<Self, Refusal>
        ensures { Made Self.meaning numbers cells result };
}

// States what writing and striking do to a book's meaning: the law is this contract.
pub fn book_law()
    ensures { BookLaw }
{}
