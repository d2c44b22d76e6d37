// Opening a docket on a plan and a book, and closing it.
ghost use Rattle.std.specs.Prelude.{◌≡◌, ◌≤◌, [], MatchResult, vec_len, vec_capacity};
ghost use Rattle.clauses.specs.declared.refusals.Refusal.TheVariants.{OutOfMemory};
ghost use Rattle.clauses.specs.Limits.{max_signals};
ghost use Rattle.model.specs.Dockets.{open_answer};
ghost use Rattle.plans.specs.PlanStates.{KeepsSizes};
ghost use Rattle.referee.specs.DocketStates.{OpenGives};

use super::Docket;
use books::ClauseBook;
use clauses::Refusal;
use clauses::limits::MAX_SIGNALS;
use gates::{GateKind, NodeRecord};
use model::Standing;
use plans::Plan;
use plans::demands::{fits_in, plan_demand};
use plans::writing::write_plan;
use std::alloc::Global;

// Whether the plan is complete, the book empty, and there is room for the plan's clauses.
fn may_open<G: GateKind, B: ClauseBook>(plan: &Plan<G>, book: &B) -> Result<(), Refusal>
    ensures answer { result ≡ open_answer G.GateKind.kind plan.now (B.ClauseBook.meaning book.now) }
    ensures sizes { KeepsSizes plan.now }
{
    if !plan.is_complete() {
        return Err(Refusal::OutOfPlace);
    }
    if book.given() != 0 {
        return Err(Refusal::UsedBook);
    }
    if !fits_in(book, plan_demand::<G>(plan)) {
        return Err(Refusal::BookFull);
    }
    Ok(())
}

// The memory of a docket: a copy of the plan, and room for all definitions.
fn memory<G: GateKind>(heap: Global, plan: &Plan<G>) -> Result<(Plan<G>, Vec<NodeRecord>), Refusal>
    ensures { MatchResult result
        (λ parts. (parts.0 ≡ plan.now) × (parts.1.items ≡ []) × (vec_len parts.1 ≡ 0) × (max_signals ≤ vec_capacity parts.1))
        (λ e. e ≡ OutOfMemory) }
{
    let kept = plan.copied(heap)?;
    let definitions = Vec::with_capacity(heap, MAX_SIGNALS)?;
    Ok((kept, definitions))
}

impl<G: GateKind, B: ClauseBook> Docket<G, B> {
    // Writes the plan's clauses into the book; refused, the book comes back as it was. It goes out with the refusal, so there is
    // no `?`.
    pub fn open(heap: Global, plan: &Plan<G>, mut book: B) -> Result<Docket<G, B>, (Refusal, B)>
        ensures gives { OpenGives G.GateKind.kind B.ClauseBook.meaning plan.now book result }
        ensures sizes { KeepsSizes plan.now }
    {
        if let Err(refusal) = may_open(plan, &book) {
            return Err((refusal, book));
        }
        let (kept, definitions) = match memory(heap, plan) {
            Ok(parts) => parts,
            Err(refusal) => return Err((refusal, book)),
        };
        write_plan(&mut book, plan);
        Ok(Docket {
            plan: kept,
            definitions,
            standing: Standing::Open,
            book,
        })
    }

    // Ends the docket and gives its book back.
    pub fn close(self) -> B
        ensures { result ≡ self.book }
    {
        let Docket {
            plan: _,
            definitions: _,
            standing: _,
            book,
        } = self;
        book
    }
}
