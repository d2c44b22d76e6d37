// The five calls on a docket; a refused one changes nothing.
ghost use Rattle.std.specs.Prelude.{◌≡◌};
ghost use Rattle.books.specs.Promise.{granted};
ghost use Rattle.model.specs.Calls.{Define, Resolve, Strike, Settle, Show, answer, changed};
ghost use Rattle.referee.specs.DocketStates.{state_of, zero_answer};

use super::resolving::resolvent;
use super::standings::{settling, showing};
use super::{Docket, Event};
use books::ClauseBook;
use clauses::Refusal;
use clauses::limits::MAX_LITERALS;
use gates::GateKind;
use plans::writing::write_node;

impl<G: GateKind, B: ClauseBook> Docket<G, B> {
    // Defines the next signal by an operator on signals in use; answers the signal.
    pub fn define(&mut self, signal: u32, code: u32, operands: &[u32]) -> Result<u32, Refusal>
        ensures answer { result ≡ answer G.GateKind.kind (state_of B.ClauseBook.meaning self.old) (Define signal code operands.now) }
        ensures after { state_of B.ClauseBook.meaning self.new ≡ granted result (changed G.GateKind.kind (state_of B.ClauseBook.meaning self.old) (Define signal code operands.now)) (state_of B.ClauseBook.meaning self.old) }
    {
        self.meet(Ok(Event::Step))?;
        let node = self.definition(signal, code, operands)?;
        write_node::<G, B>(&mut self.book, &node, signal as u16);
        self.definitions.push_reserved(node);
        Ok(signal)
    }

    // Writes the resolvent of two clauses; answers its number.
    pub fn resolve(&mut self, left: u32, right: u32) -> Result<u32, Refusal>
        ensures answer { result ≡ answer G.GateKind.kind (state_of B.ClauseBook.meaning self.old) (Resolve left right) }
        ensures after { state_of B.ClauseBook.meaning self.new ≡ granted result (changed G.GateKind.kind (state_of B.ClauseBook.meaning self.old) (Resolve left right)) (state_of B.ClauseBook.meaning self.old) }
    {
        self.meet(Ok(Event::Step))?;
        // A local buffer and a length: the joined clause goes to the book as a slice.
        let mut joined = [0; 2 * MAX_LITERALS];
        let count = resolvent(&self.book, left, right, &mut joined)?;
        self.book.write(&joined[0..count])
    }

    // Removes a clause; its number is not given again.
    pub fn strike(&mut self, number: u32) -> Result<(), Refusal>
        ensures answer { zero_answer result ≡ answer G.GateKind.kind (state_of B.ClauseBook.meaning self.old) (Strike number) }
        ensures after { state_of B.ClauseBook.meaning self.new ≡ granted result (changed G.GateKind.kind (state_of B.ClauseBook.meaning self.old) (Strike number)) (state_of B.ClauseBook.meaning self.old) }
    {
        self.meet(Ok(Event::Step))?;
        self.book.strike(number)
    }

    // The empty clause under a number settles that the plan cannot run.
    pub fn settle(&mut self, number: u32) -> Result<(), Refusal>
        ensures answer { zero_answer result ≡ answer G.GateKind.kind (state_of B.ClauseBook.meaning self.old) (Settle number) }
        ensures after { state_of B.ClauseBook.meaning self.new ≡ granted result (changed G.GateKind.kind (state_of B.ClauseBook.meaning self.old) (Settle number)) (state_of B.ClauseBook.meaning self.old) }
    {
        let event = settling(&self.book, number);
        self.meet(event)?;
        Ok(())
    }

    // A setting that makes the plan true shows that it runs; answers how many switches are on.
    pub fn show(&mut self, setting: &[u8]) -> Result<u32, Refusal>
        ensures answer { result ≡ answer G.GateKind.kind (state_of B.ClauseBook.meaning self.old) (Show setting.now) }
        ensures after { state_of B.ClauseBook.meaning self.new ≡ granted result (changed G.GateKind.kind (state_of B.ClauseBook.meaning self.old) (Show setting.now)) (state_of B.ClauseBook.meaning self.old) }
    {
        let event = showing::<G>(&self.plan, setting);
        self.meet(event)
    }
}
