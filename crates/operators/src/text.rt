// The line of a code: the code, its operand count, its truth values and its patterns.
ghost use Rattle.std.specs.Prelude.{◌≡◌, ◌<◌, ◌≤◌, [], length, IfOk, string_bytes, slice_index_or};
ghost use Rattle.clauses.specs.Few.{items_of};
ghost use Rattle.operators.specs.Text.{Appends, slot_name, literal_text, pattern_text, patterns_text, row, digit, truth_text, line_text};

use clauses::few::Few;
use gates::{GateKind, Slot, SlotLiteral};
use std::alloc::{AllocError, Global};

// The letter of an operand, or `x` for the output.
fn slot_name(names: &[char], slot: Slot) -> char
    ensures { result ≡ slot_name names.now slot }
{
    match slot {
        Slot::Operand(i) => names.get(usize::from(i)).copied().unwrap_or('?'),
        Slot::Output => 'x',
    }
}

// A name, behind a sign if the literal is negated.
// The names go along with the text, and no fact ties the two.
fn put_literal(text: &mut String, names: &[char], literal: SlotLiteral) -> Result<(), AllocError>
    ensures { Appends result (string_bytes text.old) (string_bytes text.new) (literal_text names.now literal) }
{
    if literal.negated {
        text.push('-')?;
    }
    text.push(slot_name(names, literal.slot))
}

// The literals of a pattern, a blank between two.
fn put_pattern<G: GateKind>(
    text: &mut String,
    names: &[char],
    code: u8,
    index: u8,
) -> Result<(), AllocError>
    requires known { code < G.GateKind.kind.codes }
    requires within { index < length (G.GateKind.kind.patterns code) }
    ensures { Appends result (string_bytes text.old) (string_bytes text.new) (pattern_text names.now (slice_index_or (G.GateKind.kind.patterns code) index [])) }
{
    for place in 0..G::pattern_size(code, index) {
        if place > 0 {
            text.push(' ')?;
        }
        put_literal(text, names, G::pattern_literal(code, index, place))?;
    }
    Ok(())
}

// The patterns of a code in order, a bar between two.
fn put_patterns<G: GateKind>(text: &mut String, names: &[char], code: u8) -> Result<(), AllocError>
    requires { code < G.GateKind.kind.codes }
    ensures { Appends result (string_bytes text.old) (string_bytes text.new) (patterns_text names.now (G.GateKind.kind.patterns code)) }
{
    for index in 0..G::pattern_count(code) {
        if index > 0 {
            text.push_str(" | ")?;
        }
        put_pattern::<G>(text, names, code, index)?;
    }
    Ok(())
}

// The operand values of a row: the digits of its number in base 2, the first operand the highest.
fn row_of(count: u8, number: u16) -> Few<bool, 8>
    requires { count ≤ 8 }
    ensures { items_of result ≡ row count number }
{
    let mut values = Few::new();
    for place in 0..count {
        values.push((number >> (count - 1 - place)) % 2 == 1);
    }
    values
}

// A truth value as a digit: the two characters are plainer to read than a sum with the code of '0'.
fn digit(value: bool) -> char
    ensures { result ≡ digit value }
{
    if value { '1' } else { '0' }
}

// A digit for each row in rising order.
fn put_truth<G: GateKind>(text: &mut String, code: u8) -> Result<(), AllocError>
    requires { code < G.GateKind.kind.codes }
    ensures { Appends result (string_bytes text.old) (string_bytes text.new) (truth_text G.GateKind.kind code) }
{
    let count = G::operand_count(code);
    for number in 0..1u16 << count {
        let value = G::value(code, row_of(count, number).as_slice());
        text.push(digit(value))?;
    }
    Ok(())
}

pub fn line<G: GateKind>(heap: Global, names: &[char], code: u8) -> Result<String, AllocError>
    requires { code < G.GateKind.kind.codes }
    ensures { IfOk result (λ text. string_bytes text ≡ line_text G.GateKind.kind names.now code) }
{
    let operands = G::operand_count(code);
    let mut text = format!(in heap; "{code} {operands} ")?;
    put_truth::<G>(&mut text, code)?;
    text.push(' ')?;
    put_patterns::<G>(&mut text, names, code)?;
    Ok(text)
}
