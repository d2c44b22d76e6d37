// The docket's standing and an event.
ghost use Rattle.std.specs.Prelude.{◌≡◌};
ghost use Rattle.books.specs.Promise.{granted};
ghost use Rattle.model.specs.Calls.{with_standing};
ghost use Rattle.books.specs.Book.{clause_at};
ghost use Rattle.referee.specs.Events.{event_answer, stands_after, settle_event, show_event};
ghost use Rattle.plans.specs.Showings.{setting_answer};
ghost use Rattle.referee.specs.DocketStates.{state_of};

use super::{Docket, Event};
use books::ClauseBook;
use clauses::Refusal;
use gates::GateKind;
use model::Standing;
use plans::Plan;
use plans::settings::shown;

// What settling by a number comes to.
pub(crate) fn settling<B: ClauseBook>(book: &B, number: u32) -> Result<Event, Refusal>
    ensures { result ≡ settle_event (clause_at (B.ClauseBook.meaning book.now) number) }
{
    match book.length(number)? {
        0 => Ok(Event::Refuted),
        _ => Err(Refusal::NotEmpty),
    }
}

// What showing a setting comes to.
pub(crate) fn showing<G: GateKind>(plan: &Plan<G>, setting: &[u8]) -> Result<Event, Refusal>
    ensures { result ≡ show_event (setting_answer G.GateKind.kind plan.now setting.now) }
{
    shown::<G>(plan, setting).map(Event::Shown)
}

impl<G: GateKind, B: ClauseBook> Docket<G, B> {
    // Only an open docket takes an event; answers what the call does.
    pub(crate) fn meet(&mut self, event: Result<Event, Refusal>) -> Result<u32, Refusal>
        ensures answer { result ≡ event_answer self.old.standing event }
        ensures after { state_of B.ClauseBook.meaning self.new ≡ granted result (with_standing (state_of B.ClauseBook.meaning self.old) (stands_after event)) (state_of B.ClauseBook.meaning self.old) }
    {
        match (&mut self.standing, event) {
            (Standing::Open, Ok(Event::Step)) => Ok(0),
            (standing @ Standing::Open, Ok(Event::Refuted)) => {
                *standing = Standing::CannotRun;
                Ok(0)
            }
            (standing @ Standing::Open, Ok(Event::Shown(on))) => {
                *standing = Standing::Runs(on);
                Ok(on as u32)
            }
            (Standing::Open, Err(refusal)) => Err(refusal),
            (Standing::CannotRun | Standing::Runs(_), _) => Err(Refusal::Closed),
        }
    }
}
