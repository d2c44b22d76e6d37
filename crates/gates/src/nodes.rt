// Nodes: an operator applied to earlier signals, and the values of signals.
ghost use Rattle.std.specs.Prelude.{◌≡◌, ◌+◌, map, length, take};
ghost use Rattle.clauses.specs.Few.{items_of};
ghost use Rattle.gates.specs.Nodes.{node_of, known, value_at, operand_row, node_value, values_of};

use crate::kinds::GateKind;
use crate::records::NodeRecord;
use clauses::few::Few;

// Whether the kind has the node's code, with as many operands.
pub fn known<G: GateKind>(node: &NodeRecord) -> bool
    ensures { result ≡ known G.GateKind.kind (node_of node.now) }
{
    node.code < G::CODES && node.count == G::operand_count(node.code)
}

// The value of a signal, counted from 1; of any other, off.
pub fn value_at(values: &[bool], signal: u16) -> bool
    ensures { result ≡ value_at values.now signal }
{
    match signal {
        0 => false,
        _ => values
            .get(usize::from(signal) - 1)
            .copied()
            .unwrap_or(false),
    }
}

// The values of a node's operands.
fn operand_row(node: &NodeRecord, values: &[bool]) -> Few<bool, 8>
    ensures { items_of result ≡ operand_row (node_of node.now) values.now }
{
    let mut row = Few::new();
    for signal in &node.operands[..usize::from(node.count)] {
        row.push(value_at(values, *signal));
    }
    row
}

// The operator's value on the values of its operands.
fn node_value<G: GateKind>(node: &NodeRecord, values: &[bool]) -> bool
    ensures { result ≡ node_value G.GateKind.kind (node_of node.now) values.now }
{
    known::<G>(node) && G::value(node.code, operand_row(node, values).as_slice())
}

// Works out all nodes in order: `values` has those of the first signals, `start` of them, and gets those of the nodes behind.
pub fn evaluate<G: GateKind>(nodes: &[NodeRecord], start: usize, values: &mut [bool])
    requires { length values.old ≡ start + length nodes.now }
    ensures { values.new ≡ values_of G.GateKind.kind (map node_of nodes.now) (take start values.old) }
{
    for (i, node) in nodes.iter().enumerate() {
        let at = start + i;
        let value = node_value::<G>(node, &values[..at]);
        values[at] = value;
    }
}
