// Checking the code and the operands of a node.
ghost use Rattle.std.specs.Prelude.{◌≡◌, ◌≤◌, true, length};
ghost use Rattle.clauses.specs.Few.{items_of};
ghost use Rattle.model.specs.Plans.{is_signal, are_signals};
ghost use Rattle.plans.specs.NodeReasons.{node_in, node_answer};

use clauses::Refusal;
use clauses::few::Few;
use gates::{GateKind, NodeRecord};

// Whether a number is one of the first signals.
pub fn is_signal(signals: u16, signal: u32) -> bool
    ensures { result ≡ is_signal signals signal }
{
    1 <= signal && signal <= signals as u32
}

// Whether all operands are among the first signals.
fn are_signals(signals: u16, operands: &[u32]) -> bool
    ensures { result ≡ are_signals signals operands.now }
{
    operands.iter().all(|operand| is_signal(signals, *operand))
}

// The operands in the width in which a record keeps them.
fn narrowed(signals: u16, operands: &[u32]) -> Few<u16, 8>
    requires few { length operands.now ≤ 8 }
    requires there { are_signals signals operands.now ≡ true }
    ensures { items_of result ≡ operands.now }
{
    let mut kept = Few::new();
    for operand in operands {
        kept.push(*operand as u16);
    }
    kept
}

// The record of a code on operands among the first signals. The two come apart, as lines and calls give them, and are together
// in the record.
pub fn node_record<G: GateKind>(
    signals: u16,
    code: u32,
    operands: &[u32],
) -> Result<NodeRecord, Refusal>
    ensures { node_in result ≡ node_answer G.GateKind.kind signals code operands.now }
{
    if code >= G::CODES as u32 {
        return Err(Refusal::Operator);
    }
    let code = code as u8;
    if operands.len() != G::operand_count(code) as usize {
        return Err(Refusal::OperandCount);
    }
    if !are_signals(signals, operands) {
        return Err(Refusal::NoSignal);
    }
    Ok(NodeRecord::new(code, narrowed(signals, operands).as_slice()))
}
