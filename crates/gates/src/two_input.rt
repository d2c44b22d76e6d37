// The sixteen operators of two operands, and 'not'.
ghost use Rattle.std.specs.Prelude.{◌≡◌, ◌<◌, [], map, slice_index_or, refl};
ghost use Rattle.gates.specs.TwoInput.{two_input, two_table, table_row};
ghost use Rattle.gates.specs.KindLaws.{two_input_lawful, two_input_sized};

use crate::kinds::{GateKind, Slot, SlotLiteral};

const L: SlotLiteral = SlotLiteral {
    slot: Slot::Operand(0),
    negated: false,
};

const NOT_L: SlotLiteral = SlotLiteral {
    slot: Slot::Operand(0),
    negated: true,
};

const R: SlotLiteral = SlotLiteral {
    slot: Slot::Operand(1),
    negated: false,
};

const NOT_R: SlotLiteral = SlotLiteral {
    slot: Slot::Operand(1),
    negated: true,
};

const X: SlotLiteral = SlotLiteral {
    slot: Slot::Output,
    negated: false,
};

const NOT_X: SlotLiteral = SlotLiteral {
    slot: Slot::Output,
    negated: true,
};

// The patterns of the codes 0 to 7, from which those of all others come.
static PATTERNS: [&[&[SlotLiteral]]; 8] = [
    &[&[NOT_X]],
    &[&[L, NOT_X], &[R, NOT_X], &[NOT_L, NOT_R, X]],
    &[&[L, NOT_X], &[NOT_R, NOT_X], &[NOT_L, R, X]],
    &[&[L, NOT_X], &[NOT_L, X]],
    &[&[NOT_L, NOT_X], &[R, NOT_X], &[L, NOT_R, X]],
    &[&[R, NOT_X], &[NOT_R, X]],
    &[
        &[NOT_L, R, X],
        &[L, NOT_R, X],
        &[L, R, NOT_X],
        &[NOT_L, NOT_R, NOT_X],
    ],
    &[&[NOT_L, X], &[NOT_R, X], &[L, R, NOT_X]],
];

// The row of the table that a code uses: its own, or that of the operator that it inverts.
fn table_row(code: u8) -> u8
    requires { code < 17 }
    ensures { result ≡ table_row code }
{
    match code {
        0..=7 => code,
        8..=15 => 15 - code,
        _ => 3,
    }
}

fn table_patterns(code: u8) -> &'static [&'static [SlotLiteral]]
    requires { code < 17 }
    ensures { map (λ x. x.now) result.now ≡ slice_index_or two_table (table_row code) [] }
{
    PATTERNS[table_row(code) as usize]
}

#[derive(Clone, Copy)]
pub struct TwoInput;

impl GateKind for TwoInput {
    const CODES: u8 = 17;

    ghost CODES = { 17 };

    ghost kind = { two_input };

    ghost counted = { refl };

    ghost lawful = { two_input_lawful };

    ghost sized = { two_input_sized };

    fn operand_count(code: u8) -> u8 {
        if code < 16 { 2 } else { 1 }
    }

    fn value(code: u8, row: &[bool]) -> bool {
        if code < 16 {
            let place = 3 - (2 * row[0] as u8 + row[1] as u8);
            (code >> place) % 2 == 1
        } else {
            !row[0]
        }
    }

    fn pattern_count(code: u8) -> u8 {
        table_patterns(code).len() as u8
    }

    fn pattern_size(code: u8, index: u8) -> u8 {
        table_patterns(code)[index as usize].len() as u8
    }

    fn pattern_literal(code: u8, index: u8, place: u8) -> SlotLiteral {
        let pattern = table_patterns(code)[index as usize];
        let literal = pattern[place as usize];
        if code < 8 {
            literal
        } else {
            literal.inverted()
        }
    }
}
