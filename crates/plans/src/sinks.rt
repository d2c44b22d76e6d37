// Going through the clauses of nodes and of a plan in order, to count them or to write them.
ghost use Rattle.std.specs.Prelude.{◌≡◌, ℕ, ◌+◌, ◌≤◌, List, [], ◌∷◌, map, length};
ghost use Rattle.std.specs.List.{FoldsTo};
ghost use Rattle.gates.specs.Nodes.{node_of};
ghost use Rattle.gates.specs.GateClauses.{clauses_of};
ghost use Rattle.model.specs.Plans.{nodes_clauses, plan_clauses};
ghost use Rattle.plans.specs.PlanStates.{KeepsSizes};
ghost use Rattle.plans.specs.Sinks.{CanPutAll};

use crate::plans::Plan;
use clauses::literals::literal_of;
use gates::gate_clauses::{MAX_INSTANCE, pattern_count_of};
use gates::{GateKind, NodeRecord, fill_clause};

// What gets clauses one after another.
pub trait ClauseSink {
    // The sink has room for a clause.
    ghost can_put: { Self → List ℕ → Type 0 };

    // What a clause makes of the sink.
    ghost put_gives: { Self → List ℕ → Self → Type 0 };

    fn put(&mut self, clause: &[u32])
        requires short { length clause.now ≤ 64 }
        requires room { can_put self.old clause.now }
        ensures { put_gives self.old clause.now self.new };
}

// Puts the clauses of a node that is the signal `output`.
pub fn put_node<G: GateKind, S: ClauseSink>(sink: &mut S, node: &NodeRecord, output: u16)
    requires { CanPutAll S.ClauseSink.can_put S.ClauseSink.put_gives sink.old (clauses_of G.GateKind.kind output (node_of node.now)) }
    ensures { FoldsTo S.ClauseSink.put_gives sink.old (clauses_of G.GateKind.kind output (node_of node.now)) sink.new }
{
    // A buffer and a length: a clause is filled into a slice and goes on as one.
    let mut clause = [0; MAX_INSTANCE];
    for index in 0..pattern_count_of::<G>(node) {
        if let Some(length) = fill_clause::<G>(node, output, index, &mut clause) {
            sink.put(&clause[0..length]);
        }
    }
}

// Puts the clauses of nodes that are the signals behind the first `before`.
fn put_nodes<G: GateKind, S: ClauseSink>(sink: &mut S, nodes: &[NodeRecord], before: u16)
    requires few { before + length nodes.now ≤ 1024 }
    requires room { CanPutAll S.ClauseSink.can_put S.ClauseSink.put_gives sink.old (nodes_clauses G.GateKind.kind before (map node_of nodes.now)) }
    ensures { FoldsTo S.ClauseSink.put_gives sink.old (nodes_clauses G.GateKind.kind before (map node_of nodes.now)) sink.new }
{
    for (place, node) in nodes.iter().enumerate() {
        put_node::<G, S>(sink, node, before + place as u16 + 1);
    }
}

// Puts the clauses of a plan: those of each gate in order, last the root's.
pub fn put_plan<G: GateKind, S: ClauseSink>(sink: &mut S, plan: &Plan<G>)
    requires { CanPutAll S.ClauseSink.can_put S.ClauseSink.put_gives sink.old (plan_clauses G.GateKind.kind plan.now) }
    ensures clauses { FoldsTo S.ClauseSink.put_gives sink.old (plan_clauses G.GateKind.kind plan.now) sink.new }
    ensures sizes { KeepsSizes plan.now }
{
    put_nodes::<G, S>(sink, plan.gates(), plan.switches());
    if let Some(root) = plan.root_signal() {
        sink.put(&[literal_of(root, false)]);
    }
}
