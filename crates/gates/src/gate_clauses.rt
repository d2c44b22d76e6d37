// The clauses of a gate: an operator's patterns with signals put in.
ghost use Rattle.std.specs.Prelude.{◌≡◌, ℕ, ◌<◌, ◌≤◌, T, length, take, slice_index};
ghost use Rattle.clauses.specs.Buffers.{written_over};
ghost use Rattle.gates.specs.Kinds.{in_place};
ghost use Rattle.gates.specs.Nodes.{node_of};
ghost use Rattle.gates.specs.GateClauses.{put_in, insert, both_ways, kept_length, node_patterns, instance_of, GateLaw};

use crate::kinds::{GateKind, Slot, SlotLiteral};
use crate::nodes::known;
use crate::records::NodeRecord;
use clauses::literals::{flip, literal_of};

// The most literals that an instance of a pattern can have: two for each of eight operands and the output.
pub const MAX_INSTANCE: usize = 18;

// A literal of a pattern, with the signal put in that its slot stands for.
fn put_in(node: &NodeRecord, output: u16, slot_literal: SlotLiteral) -> u32
    requires { T (in_place (length (node_of node.now).operands) slot_literal.slot) }
    ensures { result ≡ put_in output (node_of node.now).operands slot_literal }
{
    let signal = match slot_literal.slot {
        Slot::Operand(i) => node.operands[i as usize],
        Slot::Output => output,
    };
    literal_of(signal, slot_literal.negated)
}

// The first place of a clause whose literal is not below the given one.
fn place_of(literal: u32, clause: &[u32]) -> usize
    ensures within { result ≤ length clause.now }
    ensures before { (k : ℕ) → k < result → slice_index clause.now k < literal }
    ensures reached { result < length clause.now → literal ≤ slice_index clause.now result }
{
    clause
        .iter()
        .position(|other| *other >= literal)
        .unwrap_or(clause.len())
}

// Puts a literal into its place among the first `count` of a clause, once; answers how many there are then. The clause is
// the front of a caller's slice, as clauses are everywhere.
fn insert(literal: u32, clause: &mut [u32], count: usize) -> usize
    requires { count < length clause.old }
    ensures count { result ≡ length (insert literal (take count clause.old)) }
    ensures buffer { clause.new ≡ written_over (insert literal (take count clause.old)) clause.old }
{
    let at = place_of(literal, &clause[..count]);
    if at < count && clause[at] == literal {
        return count;
    }
    clause.copy_within(at..count, at + 1);
    clause[at] = literal;
    count + 1
}

// Whether a signal stands both ways in a clause.
fn both_ways(clause: &[u32]) -> bool
    ensures { result ≡ both_ways clause.now }
{
    clause
        .iter()
        .any(|literal| clause.contains(&flip(*literal)))
}

// The length of an instance, or nothing where it is left out since a signal stands both ways in it.
fn kept_length(clause: &[u32]) -> Option<usize>
    ensures { result ≡ kept_length clause.now }
{
    if both_ways(clause) {
        None
    } else {
        Some(clause.len())
    }
}

// How many patterns a node's operator has; none where the kind does not know the node.
pub fn pattern_count_of<G: GateKind>(node: &NodeRecord) -> u8
    ensures { result ≡ length (node_patterns G.GateKind.kind (node_of node.now)) }
{
    if known::<G>(node) {
        G::pattern_count(node.code)
    } else {
        0
    }
}

// Fills the front of `out` with the instance of a node's pattern; answers its length, or nothing where it is left out.
// A node and the signal that it is are no struct: the caller counts the signal up, and no fact ties the two. `out` is a slice
// and a length is answered, since clauses go on as slices.
pub fn fill_clause<G: GateKind>(
    node: &NodeRecord,
    output: u16,
    index: u8,
    out: &mut [u32],
) -> Option<usize>
    requires within { index < length (node_patterns G.GateKind.kind (node_of node.now)) }
    requires room { 18 ≤ length out.old }
    ensures answer { result ≡ kept_length (instance_of G.GateKind.kind output (node_of node.now) index) }
    ensures buffer { out.new ≡ written_over (instance_of G.GateKind.kind output (node_of node.now) index) out.old }
{
    let mut count = 0;
    for place in 0..G::pattern_size(node.code, index) {
        let literal = put_in(node, output, G::pattern_literal(node.code, index, place));
        count = insert(literal, out, count);
    }
    kept_length(&out[..count])
}

// States what the clauses of a gate say, for every kind: the law is this contract.
pub fn gate_law<G: GateKind>()
    ensures { GateLaw G.GateKind.kind }
{}
