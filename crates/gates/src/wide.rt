// 'And', 'or', 'nand' and 'nor' of one to eight operands.
ghost use Rattle.std.specs.Prelude.{◌≡◌, ◌<◌, ◌≤◌, [], length, slice_index_or, refl};
ghost use Rattle.gates.specs.Kinds.{past_end};
ghost use Rattle.gates.specs.WideGates.{wide, function, disjunctive, inverting, wide_value, plain_patterns};
ghost use Rattle.gates.specs.KindLaws.{wide_lawful, wide_sized};

use crate::kinds::{GateKind, Slot, SlotLiteral};

// What a wide gate works out: the code of one with k operands is 8 f + k - 1, for f from 0 to 3 in this order.
#[derive(Clone, Copy)]
pub enum WideFunction {
    And,
    Or,
    Nand,
    Nor,
}

impl From<u8> for WideFunction {
    ghost from_gives = { λ code f. f ≡ function code };

    fn from(code: u8) -> WideFunction {
        match code / 8 {
            0 => WideFunction::And,
            1 => WideFunction::Or,
            2 => WideFunction::Nand,
            _ => WideFunction::Nor,
        }
    }
}

impl WideFunction {
    // Whether it asks for one operand rather than for all.
    fn disjunctive(self) -> bool
        ensures { result ≡ disjunctive self }
    {
        matches!(self, WideFunction::Or | WideFunction::Nor)
    }

    // Whether it gives the opposite of what it asks for.
    fn inverting(self) -> bool
        ensures { result ≡ inverting self }
    {
        matches!(self, WideFunction::Nand | WideFunction::Nor)
    }

    // Its value on a row of operand values.
    fn value(self, row: &[bool]) -> bool
        ensures { result ≡ wide_value self row.now }
    {
        match self {
            WideFunction::And => row.iter().all(|on| *on),
            WideFunction::Or => row.iter().any(|on| *on),
            WideFunction::Nand => !row.iter().all(|on| *on),
            WideFunction::Nor => !row.iter().any(|on| *on),
        }
    }

    // The literal at a place of a pattern, on so many operands, before it is inverted.
    fn plain_literal(self, operands: u8, index: u8, place: u8) -> SlotLiteral
        requires within { index ≤ operands }
        requires inside { place < length (slice_index_or (plain_patterns (disjunctive self) operands) index []) }
        ensures { result ≡ slice_index_or (slice_index_or (plain_patterns (disjunctive self) operands) index []) place past_end }
    {
        let any = self.disjunctive();
        let (slot, negated) = if index < operands {
            if place == 0 {
                (Slot::Operand(index), any)
            } else {
                (Slot::Output, !any)
            }
        } else if place < operands {
            (Slot::Operand(place), !any)
        } else {
            (Slot::Output, any)
        };
        SlotLiteral { slot, negated }
    }
}

#[derive(Clone, Copy)]
pub struct Wide;

impl GateKind for Wide {
    const CODES: u8 = 32;

    ghost CODES = { 32 };

    ghost kind = { wide };

    ghost counted = { refl };

    ghost lawful = { wide_lawful };

    ghost sized = { wide_sized };

    fn operand_count(code: u8) -> u8 {
        code % 8 + 1
    }

    fn value(code: u8, row: &[bool]) -> bool {
        WideFunction::from(code).value(row)
    }

    fn pattern_count(code: u8) -> u8 {
        Self::operand_count(code) + 1
    }

    fn pattern_size(code: u8, index: u8) -> u8 {
        let operands = Self::operand_count(code);
        if index < operands { 2 } else { operands + 1 }
    }

    fn pattern_literal(code: u8, index: u8, place: u8) -> SlotLiteral {
        let function = WideFunction::from(code);
        let literal = function.plain_literal(Self::operand_count(code), index, place);
        if function.inverting() {
            literal.inverted()
        } else {
            literal
        }
    }
}
