// Numbers in decimal, at most 65,535, with no leading zero.
ghost use Rattle.std.specs.Prelude.{◌≡◌};
ghost use Rattle.texts.specs.Numbers.{number_answer, SpellsExactly};

use clauses::Refusal;

// The largest number of a text.
const MAX_NUMBER: u32 = 65535;

// The number that a field spells.
pub fn number(field: &[u8]) -> Result<u32, Refusal>
    ensures answer { result ≡ number_answer field.now }
    ensures exact { SpellsExactly field.now result }
{
    if field.len() == 0 || field.len() > 5 || (field[0] == b'0' && field.len() > 1) {
        return Err(Refusal::BadLine);
    }
    // Not by `parse`: it takes a sign and leading zeros too, so as many tests would stand before it, and a text of 32 KB would take
    // 480,000 instructions more.
    let mut value = 0u32;
    for byte in field {
        if !byte.is_ascii_digit() {
            return Err(Refusal::BadLine);
        }
        value = value * 10 + u32::from(*byte - b'0');
    }
    if value > MAX_NUMBER {
        return Err(Refusal::BadLine);
    }
    Ok(value)
}
