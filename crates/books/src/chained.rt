// A clause book whose clauses are chains of cells: the cells of a struck clause are used again.
ghost use Rattle.std.specs.Prelude.{◌≡◌, ℕ, ◌≤◌, true, ◌∷◌, ◌++◌, length, Some};
ghost use Rattle.books.specs.Promise.{Sized, max_cells};
ghost use Rattle.books.specs.Chained.{chain, times, ends, Sound, Short, chained, Parted, literals_in};

use crate::cells::{Cell, CellTable};
use crate::clause_book::{ClauseBook, NewBook, check_room, check_sizes};
use crate::numbers::Numbers;
use clauses::Refusal;
use std::alloc::Global;

// Each number whose clause stands has the first cell of the clause.
// The free cells are a chain too, from `free` on, of `spare` cells; `free` is 0 where there are none, as a cell's next is.
#[derive(Drop)]
pub struct ChainedBook {
    table: CellTable,
    numbers: Numbers<u32>,
    free: u32,
    spare: u32,
    ghost sound: { Sound table (Some free ∷ numbers.slots.items) },
    ghost short: { Short table numbers.slots.items },
    ghost keeps: { (spare ≡ length (chain table free)) × (length table ≤ max_cells) },
    ghost within: { Sized (chained table numbers.slots.items numbers.most) },
}

// Where two chains begin: that of a new clause, and that of the cells still free.
#[derive(Clone, Copy)]
struct Fronts {
    first: u32,
    free: u32,
}

// Takes a free cell for each literal, the last literal first, and chains them.
fn take_cells(table: &mut CellTable, mut free: u32, literals: &[u32]) -> Fronts
    requires free { ends table.old free ≡ true }
    requires once { (i : ℕ) → times i (chain table.old free) ≤ 1 }
    requires enough { length literals.now ≤ length (chain table.old free) }
    ensures parted { Parted table.old table.new (chain table.old free) result.free result.first }
    ensures holds { literals_in table.new result.first ≡ literals.now }
{
    let mut first = 0;
    for literal in literals.iter().rev() {
        let taken = free;
        free = table.get(taken).next;
        table.set(
            taken,
            Cell {
                literal: *literal,
                next: first,
            },
        );
        first = taken;
    }
    Fronts { first, free }
}

// Puts the cells of a chain before the free ones, and says where these begin then.
// The walk is by hand, since it changes the cells that it passes.
fn give_back(table: &mut CellTable, first: u32, mut free: u32) -> u32
    requires first { ends table.old first ≡ true }
    requires free { ends table.old free ≡ true }
    requires room { length (chain table.old first ++ chain table.old free) ≤ length table.old }
    requires once { (i : ℕ) → times i (chain table.old first ++ chain table.old free) ≤ 1 }
    ensures { Parted table.old table.new (chain table.old first ++ chain table.old free) 0 result }
{
    let mut left = first;
    while left != 0 {
        let given = left;
        left = table.get(given).next;
        table.set(
            given,
            Cell {
                literal: 0,
                next: free,
            },
        );
        free = given;
    }
    free
}

impl ClauseBook for ChainedBook {
    ghost meaning = { λ s. chained s.table s.numbers.slots.items s.numbers.most };

    ghost sized = { λ s. s.within };

    fn write(&mut self, literals: &[u32]) -> Result<u32, Refusal> {
        check_room(literals.len(), self.free_numbers(), self.free_cells())?;
        let fronts = take_cells(&mut self.table, self.free, literals);
        self.free = fronts.free;
        self.spare -= literals.len() as u32;
        Ok(self.numbers.give(fronts.first))
    }

    fn length(&self, number: u32) -> Result<u32, Refusal> {
        let first = self.numbers.get(number)?;
        Ok(self.table.chain(first).count() as u32)
    }

    fn literal(&self, number: u32, place: u32) -> Result<u32, Refusal> {
        let first = self.numbers.get(number)?;
        self.table
            .chain(first)
            .nth(place as usize)
            .ok_or(Refusal::NoClause)
    }

    fn strike(&mut self, number: u32) -> Result<(), Refusal> {
        let first = self.numbers.get(number)?;
        let length = self.table.chain(first).count() as u32;
        self.free = give_back(&mut self.table, first, self.free);
        self.spare += length;
        self.numbers.clear(number);
        Ok(())
    }

    fn given(&self) -> u32 {
        self.numbers.given()
    }

    fn free_numbers(&self) -> u32 {
        self.numbers.free()
    }

    fn free_cells(&self) -> u32 {
        self.spare
    }
}

impl NewBook for ChainedBook {
    fn new(heap: Global, numbers: u32, cells: u32) -> Result<ChainedBook, Refusal> {
        check_sizes(numbers, cells)?;
        Ok(ChainedBook {
            table: CellTable::new(heap, cells)?,
            numbers: Numbers::new(heap, numbers)?,
            free: cells,
            spare: cells,
        })
    }
}
