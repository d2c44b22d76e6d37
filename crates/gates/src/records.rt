// The record in which a node is kept.
ghost use Rattle.std.specs.Prelude.{◌≡◌, ◌≤◌, length};

// A code and its first `count` operands, which are signals; the other places mean nothing. A record takes 18 bytes, and would take
// 32 with a `Few`, whose count is a `usize`: a plan has room for 256 records, and a docket for 1,024 definitions. Contracts say
// `node_of` it, and it has no model, as `Few` has none.
#[derive(Clone, Copy)]
pub struct NodeRecord {
    pub code: u8,
    pub count: u8,
    pub operands: [u16; 8],
    ghost few: { count ≤ 8 },
}

impl NodeRecord {
    ghost use Rattle.gates.specs.Nodes.{node_of};

    // The record of a code on at most eight operands.
    pub fn new(code: u8, operands: &[u16]) -> NodeRecord
        requires { length operands.now ≤ 8 }
        ensures { node_of result ≡ record { code = code; operands = operands.now } }
    {
        let mut kept = [0; 8];
        kept[..operands.len()].copy_from_slice(operands);
        NodeRecord {
            code,
            count: operands.len() as u8,
            operands: kept,
        }
    }
}
