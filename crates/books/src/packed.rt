// A clause book that keeps its clauses end to end: a struck clause leaves no gap.
ghost use Rattle.std.specs.Prelude.{◌≡◌, ℕ, ◌+◌, ◌-◌, ◌<◌, ◌≤◌, ◌++◌, map, length, Some, None, vec_len, vec_capacity, slice_index_or};
ghost use Rattle.std.specs.Option.{option_map};
ghost use Rattle.books.specs.Promise.{Sized, max_cells};
ghost use Rattle.books.specs.Packed.{LaidOut, packed, without, lowered, cleared};

use crate::clause_book::{ClauseBook, NewBook, check_room, check_sizes};
use crate::numbers::Numbers;
use crate::spans::Span;
use clauses::Refusal;
use std::alloc::Global;

// Each number whose clause stands has its span, a part of the one list of literals: all memory is taken when a book is made.
#[derive(Drop)]
pub struct PackedBook {
    literals: Vec<u32>,
    numbers: Numbers<Span>,
    cells: u32,
    ghost laid: { LaidOut literals.items numbers.slots.items },
    ghost keeps: { (vec_len literals ≤ cells) × (cells ≤ vec_capacity literals) × (cells ≤ max_cells) },
    ghost within: { Sized (packed literals.items numbers.slots.items numbers.most cells) },
}

// Takes the literals of a span out, and moves what follows them down.
fn close_gap(literals: &mut Vec<u32>, gap: Span)
    requires { gap.start + gap.length ≤ vec_len literals.old }
    ensures items { literals.new.items ≡ without literals.old.items gap.start gap.length }
    ensures len { vec_len literals.new + gap.length ≡ vec_len literals.old }
    ensures capacity { vec_capacity literals.new ≡ vec_capacity literals.old }
{
    let start = gap.start as usize;
    let length = gap.length as usize;
    let kept = literals.len() - length;
    literals.copy_within(start + length.., start);
    literals.truncate(kept);
}

// Lowers where each span starts.
fn lower(spans: &mut [Option<Span>], by: u32)
    requires { (i : ℕ) (s : Span) → slice_index_or spans.old i None ≡ Some s → by ≤ s.start }
    ensures { spans.new ≡ map (option_map (lowered by)) spans.old }
{
    for slot in spans.iter_mut() {
        if let Some(span) = slot {
            span.start -= by;
        }
    }
}

// Clears the span under a number, and lowers those of the numbers after it.
fn clear_span(numbers: &mut Numbers<Span>, number: u32, by: u32)
    requires nonzero { 0 < number }
    requires given { number ≤ vec_len numbers.old.slots }
    requires above { (i : ℕ) (s : Span) → number ≤ i → slice_index_or numbers.old.slots.items i None ≡ Some s → by ≤ s.start }
    ensures slots { numbers.new.slots.items ≡ cleared numbers.old.slots.items (number - 1) by }
    ensures most { numbers.new.most ≡ numbers.old.most }
{
    numbers.clear(number);
    lower(&mut numbers.slots[number as usize..], by);
}

impl ClauseBook for PackedBook {
    ghost meaning = { λ b. packed b.literals.items b.numbers.slots.items b.numbers.most b.cells };

    ghost sized = { λ s. s.within };

    fn write(&mut self, literals: &[u32]) -> Result<u32, Refusal> {
        check_room(literals.len(), self.free_numbers(), self.free_cells())?;
        let length = literals.len() as u32;
        let start = self.literals.len() as u32;
        self.literals.extend_from_slice(literals).unwrap();
        Ok(self.numbers.give(Span { start, length }))
    }

    fn length(&self, number: u32) -> Result<u32, Refusal> {
        let span = self.numbers.get(number)?;
        Ok(span.length)
    }

    fn literal(&self, number: u32, place: u32) -> Result<u32, Refusal> {
        let span = self.numbers.get(number)?;
        if place >= span.length {
            return Err(Refusal::NoClause);
        }
        Ok(self.literals[(span.start + place) as usize])
    }

    fn strike(&mut self, number: u32) -> Result<(), Refusal> {
        let span = self.numbers.get(number)?;
        close_gap(&mut self.literals, span);
        clear_span(&mut self.numbers, number, span.length);
        Ok(())
    }

    fn given(&self) -> u32 {
        self.numbers.given()
    }

    fn free_numbers(&self) -> u32 {
        self.numbers.free()
    }

    fn free_cells(&self) -> u32 {
        self.cells - self.literals.len() as u32
    }
}

impl NewBook for PackedBook {
    fn new(heap: Global, numbers: u32, cells: u32) -> Result<PackedBook, Refusal> {
        check_sizes(numbers, cells)?;
        Ok(PackedBook {
            literals: Vec::with_capacity(heap, cells as usize)?,
            numbers: Numbers::new(heap, numbers)?,
            cells,
        })
    }
}
