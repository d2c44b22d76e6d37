// How many numbers and cells of a book clauses need, counted before any is written.
ghost use Rattle.std.specs.Prelude.{◌≡◌, ◌<◌};
ghost use Rattle.model.specs.Plans.{plan_clauses};
ghost use Rattle.plans.specs.Demands.{demand_of, fits_in};
ghost use Rattle.plans.specs.PlanStates.{KeepsSizes};

use crate::plans::Plan;
use crate::sinks::{ClauseSink, put_plan};
use books::ClauseBook;
use clauses::limits::MAX_GATES;
use gates::GateKind;

// Numbers for clauses and cells for their literals.
#[derive(Clone, Copy, Default)]
pub struct Demand {
    pub numbers: u32,
    pub cells: u32,
}

// A clause needs a number, and a cell for each literal.
impl ClauseSink for Demand {
    ghost use Rattle.std.specs.Prelude.{◌≡◌, ◌^◌, ◌<◌};
    ghost use Rattle.plans.specs.Demands.{with_clause};

    ghost can_put = { λ d c. ((with_clause d c).numbers < 2 ^ 32) × ((with_clause d c).cells < 2 ^ 32) };

    ghost put_gives = { λ d c e. e ≡ with_clause d c };

    fn put(&mut self, clause: &[u32]) {
        self.numbers += 1;
        self.cells += clause.len() as u32;
    }
}

// Whether a book has as many free.
pub fn fits_in<B: ClauseBook>(book: &B, demand: Demand) -> bool
    ensures { result ≡ fits_in (B.ClauseBook.meaning book.now) demand }
{
    demand.numbers <= book.free_numbers() && demand.cells <= book.free_cells()
}

// What all patterns of a code need, those that will be left out too.
pub fn pattern_demand<G: GateKind>(code: u8) -> Demand
    requires { code < G.GateKind.kind.codes }
    ensures { result ≡ demand_of (G.GateKind.kind.patterns code) }
{
    // A loop: of a sum over this range, whose closure asks for a pattern that there is, the proof did not close.
    let mut cells = 0;
    for index in 0..G::pattern_count(code) {
        cells += G::pattern_size(code, index) as u32;
    }
    Demand {
        numbers: G::pattern_count(code) as u32,
        cells,
    }
}

// What the clauses of a plan need.
pub fn plan_demand<G: GateKind>(plan: &Plan<G>) -> Demand
    ensures demand { result ≡ demand_of (plan_clauses G.GateKind.kind plan.now) }
    ensures sizes { KeepsSizes plan.now }
{
    // so few that they can be counted
    prove!(plan.gates().len() <= MAX_GATES);
    let mut demand = Demand::default();
    put_plan(&mut demand, plan);
    demand
}
