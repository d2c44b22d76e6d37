// Writing the clauses of nodes and of a plan into a book that has room for them.
ghost use Rattle.std.specs.Prelude.{◌≡◌, T};
ghost use Rattle.gates.specs.Nodes.{node_of};
ghost use Rattle.gates.specs.GateClauses.{clauses_of};
ghost use Rattle.model.specs.Plans.{plan_clauses};
ghost use Rattle.model.specs.Dockets.{has_room, all_written};
ghost use Rattle.plans.specs.PlanStates.{KeepsSizes};

use crate::plans::Plan;
use crate::sinks::{ClauseSink, put_node, put_plan};
use books::ClauseBook;
use gates::{GateKind, NodeRecord};

// Each book gets a clause where it has a number and cells for it.
impl<B: ClauseBook> ClauseSink for B {
    ghost use Rattle.std.specs.Prelude.{◌≡◌, ◌≤◌, length};
    ghost use Rattle.books.specs.Book.{written, free_numbers, free_cells};

    ghost can_put = { λ b c. (1 ≤ free_numbers (B.ClauseBook.meaning b)) × (length c ≤ free_cells (B.ClauseBook.meaning b)) };

    ghost put_gives = { λ b c d. B.ClauseBook.meaning d ≡ written (B.ClauseBook.meaning b) c };

    fn put(&mut self, clause: &[u32]) {
        let _ = self.write(clause);
    }
}

// Writes the clauses of a node that is the signal `output`.
pub fn write_node<G: GateKind, B: ClauseBook>(book: &mut B, node: &NodeRecord, output: u16)
    requires { T (has_room (B.ClauseBook.meaning book.old) (clauses_of G.GateKind.kind output (node_of node.now))) }
    ensures { B.ClauseBook.meaning book.new ≡ all_written (B.ClauseBook.meaning book.old) (clauses_of G.GateKind.kind output (node_of node.now)) }
{
    put_node::<G, B>(book, node, output);
}

// Writes the clauses of a plan: those of each gate in order, last the root's.
pub fn write_plan<G: GateKind, B: ClauseBook>(book: &mut B, plan: &Plan<G>)
    requires { T (has_room (B.ClauseBook.meaning book.old) (plan_clauses G.GateKind.kind plan.now)) }
    ensures written { B.ClauseBook.meaning book.new ≡ all_written (B.ClauseBook.meaning book.old) (plan_clauses G.GateKind.kind plan.now) }
    ensures sizes { KeepsSizes plan.now }
{
    put_plan(book, plan);
}
