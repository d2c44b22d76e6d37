// The numbers that a book has given, and what it keeps of the clause under each.
ghost use Rattle.std.specs.Prelude.{◌≡◌, ◌+◌, ◌-◌, ◌<◌, ◌≤◌, ◌∷◌, ◌++◌, [], Some, None, IfOk, slice_set, vec_len, vec_capacity};
ghost use Rattle.std.specs.Option.{ok_or};
ghost use Rattle.clauses.specs.declared.refusals.Refusal.TheVariants.{NoClause};
ghost use Rattle.books.specs.Promise.{max_numbers};
ghost use Rattle.books.specs.Numbers.{entry_at};

use clauses::Refusal;
use std::alloc::{AllocError, Global};

// The number k has its entry at place k - 1, and none once its clause is struck; at most `most` numbers are given.
// The packed book changes its spans in place, so the crate sees the slots.
#[derive(Drop)]
pub struct Numbers<T> {
    pub(crate) slots: Vec<Option<T>>,
    most: u32,
    ghost gives: { (vec_len slots ≤ most) × (most ≤ vec_capacity slots) × (most ≤ max_numbers) },
}

impl<T: Copy> Numbers<T> {
    // No number is given yet; the memory for all of them is taken here.
    pub fn new(heap: Global, most: u32) -> Result<Numbers<T>, AllocError>
        requires { most ≤ max_numbers }
        ensures slots { IfOk result (λ n. n.slots.items ≡ []) }
        ensures most { IfOk result (λ n. n.most ≡ most) }
    {
        Ok(Numbers {
            slots: Vec::with_capacity(heap, most as usize)?,
            most,
        })
    }

    // What is kept under a number.
    pub fn get(&self, number: u32) -> Result<T, Refusal>
        ensures { result ≡ ok_or (entry_at self.now.slots.items number) NoClause }
    {
        if number == 0 || number as usize > self.slots.len() {
            return Err(Refusal::NoClause);
        }
        self.slots[number as usize - 1].ok_or(Refusal::NoClause)
    }

    // Gives the next number to an entry.
    pub fn give(&mut self, entry: T) -> u32
        requires { vec_len self.old.slots < self.old.most }
        ensures number { result ≡ vec_len self.old.slots + 1 }
        ensures slots { self.new.slots.items ≡ self.old.slots.items ++ (Some entry ∷ []) }
        ensures most { self.new.most ≡ self.old.most }
    {
        self.slots.push_reserved(Some(entry));
        self.given()
    }

    // Keeps nothing under a number any more.
    pub fn clear(&mut self, number: u32)
        requires nonzero { 0 < number }
        requires given { number ≤ vec_len self.old.slots }
        ensures slots { self.new.slots.items ≡ slice_set self.old.slots.items (number - 1) None }
        ensures most { self.new.most ≡ self.old.most }
    {
        self.slots[number as usize - 1] = None;
    }

    // How many numbers were given.
    pub fn given(&self) -> u32
        ensures { result ≡ vec_len self.now.slots }
    {
        self.slots.len() as u32
    }

    // How many numbers can still be given.
    pub fn free(&self) -> u32
        ensures { result ≡ self.now.most - vec_len self.now.slots }
    {
        self.most - self.given()
    }
}
