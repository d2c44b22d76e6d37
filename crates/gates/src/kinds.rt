// What a gate kind is: operator codes with a truth table and patterns of clauses, and the law that ties the two.
ghost use Rattle.std.specs.Prelude.{◌≡◌, ℕ, ◌<◌, [], length, slice_index_or};
ghost use Rattle.gates.specs.Kinds.{Kind, Lawful, Sized, past_end, inverted};

// A place in a pattern: one of the operands, counted from 0, or the output.
#[derive(Clone, Copy)]
pub enum Slot {
    Operand(u8),
    Output,
}

// A literal of a pattern.
#[derive(Clone, Copy)]
pub struct SlotLiteral {
    pub slot: Slot,
    pub negated: bool,
}

impl SlotLiteral {
    // The literal of an inverted operator: the output's is negated, an operand's stays.
    pub fn inverted(self) -> SlotLiteral
        ensures { result ≡ inverted self }
    {
        match self.slot {
            Slot::Operand(_) => self,
            Slot::Output => SlotLiteral {
                slot: Slot::Output,
                negated: !self.negated,
            },
        }
    }
}

// A kind of gate; whoever adds one shows the laws.
// Operators are codes and no enum: a plan's lines give them by number, and of two operands the number is the row of truth values.
// Codes are plain numbers: the check makes no proof of an impl whose functions take a type that has the trait as a bound
// on the impl's own type, so a type of known codes could stand only above the trait, and would repeat its functions.
pub trait GateKind {
    // How many operator codes the kind has, counted from 0.
    const CODES: u8;

    // The constant, for clauses.
    ghost CODES: { ℕ };

    // The codes, and for each code its operand count, truth values and patterns.
    ghost kind: { Kind };

    fn operand_count(code: u8) -> u8
        requires { code < kind.codes }
        ensures { result ≡ kind.arity code };

    // The operator's value on a row of operand values.
    fn value(code: u8, row: &[bool]) -> bool
        requires known { code < kind.codes }
        requires full { length row.now ≡ kind.arity code }
        ensures { result ≡ kind.truth code row.now };

    fn pattern_count(code: u8) -> u8
        requires { code < kind.codes }
        ensures { result ≡ length (kind.patterns code) };

    // How many literals the pattern has.
    fn pattern_size(code: u8, index: u8) -> u8
        requires known { code < kind.codes }
        requires within { index < length (kind.patterns code) }
        ensures { result ≡ length (slice_index_or (kind.patterns code) index []) };

    fn pattern_literal(code: u8, index: u8, place: u8) -> SlotLiteral
        requires known { code < kind.codes }
        requires within { index < length (kind.patterns code) }
        requires inside { place < length (slice_index_or (kind.patterns code) index []) }
        ensures { result ≡ slice_index_or (slice_index_or (kind.patterns code) index []) place past_end };

    // The constant is the number that the kind's definition gives.
    ghost counted: { CODES ≡ kind.codes };

    ghost lawful: { Lawful kind };

    ghost sized: { Sized kind };
}

// States the law of a kind for every code, row and output value: the law is this contract.
pub fn kind_law<G: GateKind>()
    ensures { Lawful G.GateKind.kind }
{}
