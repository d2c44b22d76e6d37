// Calls as data: one, and a list of them.
ghost use Rattle.std.specs.Prelude.{◌≡◌, map};
ghost use Rattle.books.specs.Promise.{granted};
ghost use Rattle.model.specs.Calls.{answer, changed, run};
ghost use Rattle.referee.specs.DocketStates.{state_of, call_of};

use super::{Call, Docket};
use books::ClauseBook;
use clauses::Refusal;
use gates::GateKind;

impl<G: GateKind, B: ClauseBook> Docket<G, B> {
    // Makes one call; one with no answer of its own answers 0, so that all have one type of answer.
    pub fn make(&mut self, call: Call) -> Result<u32, Refusal>
        ensures answer { result ≡ answer G.GateKind.kind (state_of B.ClauseBook.meaning self.old) (call_of call.entry) }
        ensures after { state_of B.ClauseBook.meaning self.new ≡ granted result (changed G.GateKind.kind (state_of B.ClauseBook.meaning self.old) (call_of call.entry)) (state_of B.ClauseBook.meaning self.old) }
    {
        match call {
            Call::Define(signal, code, operands) => self.define(signal, code, operands),
            Call::Resolve(left, right) => self.resolve(left, right),
            Call::Strike(number) => self.strike(number).map(|()| 0),
            Call::Settle(number) => self.settle(number).map(|()| 0),
            Call::Show(setting) => self.show(setting),
        }
    }

    // Makes calls in order, whatever is granted or refused.
    pub fn run(&mut self, calls: &[Call])
        ensures { state_of B.ClauseBook.meaning self.new ≡ run G.GateKind.kind (state_of B.ClauseBook.meaning self.old) (map call_of calls.now) }
    {
        for call in calls {
            let _ = self.make(*call);
        }
    }
}
