// What a caller reads of a docket.
ghost use Rattle.std.specs.Prelude.{◌≡◌};
ghost use Rattle.books.specs.Book.{clause_at};
ghost use Rattle.books.specs.Promise.{length_answer, read_buffer};
ghost use Rattle.model.specs.Dockets.{in_use};
ghost use Rattle.plans.specs.PlanStates.{KeepsSizes};
ghost use Rattle.referee.specs.DocketStates.{state_of};

use super::Docket;
use books::{ClauseBook, read_clause};
use clauses::Refusal;
use gates::GateKind;
use model::Standing;
use plans::Plan;

impl<G: GateKind, B: ClauseBook> Docket<G, B> {
    pub fn standing(&self) -> Standing
        ensures { result ≡ (state_of B.ClauseBook.meaning self.now).standing }
    {
        self.standing
    }

    // How many signals are in use: switches, gates and definitions.
    pub fn in_use(&self) -> u16
        ensures { result ≡ in_use (state_of B.ClauseBook.meaning self.now) }
    {
        self.plan.signals() + self.definitions.len() as u16
    }

    // Reads the clause under a number to the front of `out`, the caller's slice as in `read_clause`, and answers how many literals
    // it has.
    pub fn clause(&self, number: u32, out: &mut [u32; 64]) -> Result<usize, Refusal>
        ensures answer { result ≡ length_answer (clause_at (B.ClauseBook.meaning self.now.book) number) }
        ensures buffer { out.new ≡ read_buffer (clause_at (B.ClauseBook.meaning self.now.book) number) out.old }
    {
        read_clause(&self.book, number, out)
    }

    // The book, to read from.
    pub fn book(&self) -> &B
        ensures { result.now ≡ self.now.book }
    {
        &self.book
    }

    // The plan, to read from.
    pub fn plan(&self) -> &Plan<G>
        ensures plan { result.now ≡ self.now.plan }
        ensures sizes { KeepsSizes result.now }
    {
        &self.plan
    }
}
