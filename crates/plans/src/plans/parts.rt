// The parts of a plan.
ghost use Rattle.std.specs.Prelude.{◌≡◌, ◌≤◌, map, length};
ghost use Rattle.clauses.specs.Limits.{max_switches, max_gates};
ghost use Rattle.gates.specs.Nodes.{node_of};
ghost use Rattle.plans.specs.PlanStates.{KeepsSizes};

use super::Plan;
use gates::{GateKind, NodeRecord};

impl<G: GateKind> Plan<G> {
    // How many switches the plan has.
    pub fn switches(&self) -> u16
        ensures switches { result ≡ self.now.switches }
        ensures some { 1 ≤ result }
        ensures few { result ≤ max_switches }
        ensures sizes { KeepsSizes self.now }
    {
        self.switches
    }

    // Its gates in order.
    pub fn gates(&self) -> &[NodeRecord]
        ensures gates { map node_of result.now ≡ self.now.gates }
        ensures few { length result.now ≤ max_gates }
        ensures sizes { KeepsSizes self.now }
    {
        self.gates.as_slice()
    }

    // Its root, if it is complete.
    pub fn root_signal(&self) -> Option<u16>
        ensures root { result ≡ self.now.root }
        ensures sizes { KeepsSizes self.now }
    {
        self.root
    }
}
