// Lines: a letter decides what a line is, and fields parted by single blanks follow it.
ghost use Rattle.std.specs.Prelude.{◌≤◌, length};
ghost use Rattle.clauses.specs.Few.{items_of};

use clauses::few::Few;

mod fields;
mod forms;
mod kinds;
mod lists;
mod reading;

pub use reading::{line_law, read_line};

// The kind of a plan: two-input or wide.
#[derive(Clone, Copy)]
pub enum PlanKind {
    TwoInput,
    Wide,
}

// One to eight operands.
#[derive(Clone, Copy)]
pub struct Operands {
    signals: Few<u32, 8>,
    ghost some: { 1 ≤ length (items_of signals) },
}

// A line by its letter.
#[derive(Clone, Copy)]
pub enum Line<'a> {
    // p: the plan's kind and how many switches it has
    Plan(PlanKind, u32),
    // g: an operator code and operands
    Gate(u32, Operands),
    // r: a signal
    Root(u32),
    // f: a formula
    Formula(&'a [u8]),
    // d: a signal, an operator code and operands
    Define(u32, u32, Operands),
    // u: two clause numbers
    Resolve(u32, u32),
    // x: a clause number
    Strike(u32),
    // e: a clause number
    Settle(u32),
    // v: a digit 0 or 1 for each switch
    Show(&'a [u8]),
}
