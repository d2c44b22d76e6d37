// A docket: a complete plan, the clause book that it owns, the definitions made, and how it stands.
ghost use Rattle.std.specs.Prelude.{◌≤◌, vec_len, vec_capacity};
ghost use Rattle.clauses.specs.Limits.{max_signals};
ghost use Rattle.plans.specs.PlanStates.{KeepsSizes};

use books::ClauseBook;
use gates::{GateKind, NodeRecord};
use model::Standing;
use plans::Plan;

mod calls;
mod definitions;
mod opening;
mod reading;
mod resolving;
mod runs;
mod standings;

// What a call that is not refused on its own account comes to, before the docket's standing is asked.
#[derive(Clone, Copy)]
pub enum Event {
    // a step that leaves the docket open
    Step,
    // the empty clause stands in the book
    Refuted,
    // a setting with so many switches on makes the plan true
    Shown(u16),
}

// A call as data, so that a list of calls can be made and checked; operands and the packed setting are borrowed.
#[derive(Clone, Copy)]
pub enum Call<'a> {
    // a signal, an operator code and operands
    Define(u32, u32, &'a [u32]),
    // two clause numbers
    Resolve(u32, u32),
    // a clause number
    Strike(u32),
    Settle(u32),
    // a packed setting
    Show(&'a [u8]),
}

// Memory for all definitions is taken when a docket is opened. Contracts say `state_of` it, and it has no model: `close` and
// `book` promise the very book, and a state has only the book's meaning.
pub struct Docket<G: GateKind, B: ClauseBook> {
    plan: Plan<G>,
    definitions: Vec<NodeRecord>,
    standing: Standing,
    book: B,
    ghost sizes: { KeepsSizes plan × (vec_len definitions ≤ max_signals) × (max_signals ≤ vec_capacity definitions) },
}
