// A run plan as it grows: switches, gates over earlier signals, and a root once it is complete.
ghost use Rattle.std.specs.Prelude.{◌≡◌, ◌+◌, ◌≤◌, IfOk};
ghost use Rattle.clauses.specs.Limits.{max_switches, max_gates};
ghost use Rattle.books.specs.Promise.{granted};
ghost use Rattle.model.specs.Plans.{node, begun, signals, complete, gate_answer, with_gate, root_answer, with_root};
ghost use Rattle.plans.specs.PlanStates.{KeepsSizes, Begins, Copies};

use crate::operands::{is_signal, node_record};
use clauses::Refusal;
use clauses::limits::{MAX_GATES, MAX_SWITCHES};
use gates::{GateKind, NodeRecord};
use std::alloc::Global;
use std::marker::{Model, PhantomData};

mod parts;

// Memory for all gates is taken when a plan is begun.
#[derive(Drop)]
pub struct Plan<G: GateKind> {
    switches: u16,
    gates: Vec<NodeRecord>,
    root: Option<u16>,
    kind: PhantomData<G>,
}

// Contracts see the defined plan that the fields keep.
impl<G: GateKind> Model for Plan<G> {
    ghost use Rattle.std.specs.Prelude.{◌≤◌, map, vec_len, vec_capacity};
    ghost use Rattle.clauses.specs.Limits.{max_switches, max_gates};
    ghost use Rattle.gates.specs.Nodes.{node_of};
    ghost use Rattle.model.specs.Plans as model;

    ghost Value = { model.Plan };

    ghost view = { λ p. record { switches = p.switches; gates = map node_of p.gates.items; root = p.root } };

    ghost invariant = { λ p. (1 ≤ p.switches) × (p.switches ≤ max_switches) × (vec_len p.gates ≤ max_gates) × (max_gates ≤ vec_capacity p.gates) };
}

impl<G: GateKind> Plan<G> {
    // A plan of 1 to 256 switches, with no gates yet.
    pub fn begin(heap: Global, switches: u32) -> Result<Plan<G>, Refusal>
        ensures begins { Begins switches result }
        ensures sizes { IfOk result KeepsSizes }
    {
        if switches < 1 || switches > MAX_SWITCHES as u32 {
            return Err(Refusal::Size);
        }
        Ok(Plan {
            switches: switches as u16,
            gates: Vec::with_capacity(heap, MAX_GATES)?,
            root: None,
            kind: PhantomData,
        })
    }

    // How many signals the plan has: switches and gates.
    pub fn signals(&self) -> u16
        ensures signals { result ≡ signals self.now }
        ensures few { result ≤ max_switches + max_gates }
        ensures sizes { KeepsSizes self.now }
    {
        self.switches + self.gates.len() as u16
    }

    // Whether it has a root.
    pub fn is_complete(&self) -> bool
        ensures complete { result ≡ complete self.now }
        ensures sizes { KeepsSizes self.now }
    {
        self.root.is_some()
    }

    // One gate more; answers its signal.
    pub fn gate(&mut self, code: u32, operands: &[u32]) -> Result<u32, Refusal>
        ensures answer { result ≡ gate_answer G.GateKind.kind self.old code operands.now }
        ensures after { self.new ≡ granted result (with_gate self.old (node code operands.now)) self.old }
        ensures sizes { KeepsSizes self.new }
    {
        if self.is_complete() {
            return Err(Refusal::OutOfPlace);
        }
        if self.gates.len() >= MAX_GATES {
            return Err(Refusal::Size);
        }
        let signals = self.signals();
        let gate = node_record::<G>(signals, code, operands)?;
        self.gates.push_reserved(gate);
        Ok(signals as u32 + 1)
    }

    // The signal that is the plan's value; the plan is complete then.
    pub fn root(&mut self, signal: u32) -> Result<(), Refusal>
        ensures answer { result ≡ root_answer self.old signal }
        ensures after { self.new ≡ granted result (with_root self.old signal) self.old }
        ensures sizes { KeepsSizes self.new }
    {
        if self.is_complete() {
            return Err(Refusal::OutOfPlace);
        }
        if !is_signal(self.signals(), signal) {
            return Err(Refusal::NoSignal);
        }
        self.root = Some(signal as u16);
        Ok(())
    }

    // Takes gates and root away again.
    pub fn clear(&mut self)
        ensures after { self.new ≡ begun self.old.switches }
        ensures before { KeepsSizes self.old }
        ensures sizes { KeepsSizes self.new }
    {
        self.gates.clear();
        self.root = None;
    }

    // The same plan in memory of its own.
    pub fn copied(&self, heap: Global) -> Result<Plan<G>, Refusal>
        ensures copies { Copies self.now result }
        ensures sizes { KeepsSizes self.now }
    {
        let switches = self.switches();
        let mut gates = Vec::with_capacity(heap, MAX_GATES)?;
        gates.extend_from_slice(&self.gates)?;
        Ok(Plan {
            switches,
            gates,
            root: self.root,
            kind: PhantomData,
        })
    }
}
