// Checking a definition before it is made.
ghost use Rattle.std.specs.Prelude.{◌≡◌};
ghost use Rattle.plans.specs.NodeReasons.{node_in};
ghost use Rattle.referee.specs.DocketStates.{state_of, definition_answer};

use super::Docket;
use books::ClauseBook;
use clauses::Refusal;
use clauses::limits::MAX_SIGNALS;
use gates::{GateKind, NodeRecord};
use plans::demands::{fits_in, pattern_demand};
use plans::operands::node_record;

impl<G: GateKind, B: ClauseBook> Docket<G, B> {
    // The record of the next signal's definition, if it may be made on an open docket.
    pub(crate) fn definition(
        &self,
        signal: u32,
        code: u32,
        operands: &[u32],
    ) -> Result<NodeRecord, Refusal>
        ensures { node_in result ≡ definition_answer G.GateKind.kind (state_of B.ClauseBook.meaning self.now) signal code operands.now }
    {
        let in_use = self.in_use();
        let node = node_record::<G>(in_use, code, operands)?;
        if signal != in_use as u32 + 1 {
            return Err(Refusal::NotNew);
        }
        if in_use as usize >= MAX_SIGNALS {
            return Err(Refusal::SignalsSpent);
        }
        if !fits_in(&self.book, pattern_demand::<G>(node.code)) {
            return Err(Refusal::BookFull);
        }
        Ok(node)
    }
}
