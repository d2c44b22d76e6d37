// The cells that a chained book keeps its literals in.
ghost use Rattle.std.specs.Prelude.{◌≡◌, ◌<◌, ◌≤◌, true, length, IfOk};
ghost use Rattle.std.specs.Iterator.{YieldsFirst, item_count};
ghost use Rattle.books.specs.Chained.{cell_at, with_cell, unused, ends, literals_in};

use std::alloc::{AllocError, Global};
use std::marker::Model;

// A literal, and the number of the next cell: 0 at the end of a chain, and no Option, since a cell is to be two plain numbers.
#[derive(Clone, Copy)]
pub struct Cell {
    pub literal: u32,
    pub next: u32,
}

// Cells under the numbers from 1 on. The numbers are plain ones, not `NonZeroU32`: the next of a cell may be 0.
#[derive(Drop)]
pub struct CellTable {
    cells: Vec<Cell>,
}

// Callers see the list of the cells.
impl Model for CellTable {
    ghost use Rattle.std.specs.Prelude.{List};
    ghost use Rattle.books.specs.declared.cells.Cell.{Cell};

    ghost Value = { List Cell };

    ghost view = { λ t. t.cells.items };
}

impl CellTable {
    // Unused cells, each of which names the one before it.
    pub fn new(heap: Global, count: u32) -> Result<CellTable, AllocError>
        ensures { IfOk result (λ t. t ≡ unused count) }
    {
        let mut cells = Vec::with_capacity(heap, count as usize)?;
        for next in 0..count {
            cells.push_reserved(Cell { literal: 0, next });
        }
        Ok(CellTable { cells })
    }

    // The cell under a number.
    pub fn get(&self, number: u32) -> Cell
        requires number_nonzero { 0 < number }
        requires number_in_bounds { number ≤ length self.now }
        ensures { result ≡ cell_at self.now number }
    {
        self.cells[number as usize - 1]
    }

    // Changes the cell under a number: no cell is changed otherwise.
    pub fn set(&mut self, number: u32, cell: Cell)
        requires number_nonzero { 0 < number }
        requires number_in_bounds { number ≤ length self.old }
        ensures { self.new ≡ with_cell self.old number cell }
    {
        self.cells[number as usize - 1] = cell;
    }

    // The literals in the chain from a cell on.
    pub fn chain(&self, first: u32) -> Chain<'_>
        requires { ends self.now first ≡ true }
        ensures { result ≡ literals_in self.now first }
    {
        Chain {
            table: self,
            next: first,
        }
    }
}

// The literals in a chain of cells that comes to an end, first to last.
#[derive(Drop)]
pub struct Chain<'a> {
    table: &'a CellTable,
    next: u32,
}

// Callers see the list of the literals that are left.
impl<'a> Model for Chain<'a> {
    ghost use Rattle.std.specs.Prelude.{◌≡◌, ℕ, List, true};
    ghost use Rattle.books.specs.Chained.{ends, literals_in};

    ghost Value = { List ℕ };

    ghost view = { λ c. literals_in c.table.now c.next };

    ghost invariant = { λ c. ends c.table.now c.next ≡ true };
}

impl Iterator for Chain<'_> {
    type Item = u32;

    ghost next_gives = { YieldsFirst (λ left. left) };

    ghost remaining = { item_count (λ left. left) };

    fn next(&mut self) -> Option<u32> {
        if self.next == 0 {
            return None;
        }
        let Cell { literal, next } = self.table.get(self.next);
        self.next = next;
        Some(literal)
    }
}
