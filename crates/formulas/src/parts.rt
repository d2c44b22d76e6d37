// The small parts of a formula: a sign, a ')', the number of a switch.
ghost use Rattle.std.specs.Prelude.{◌≡◌, ℕ, ◌∷◌, Some, None, MatchResult, ◌≢◌};
ghost use Rattle.clauses.specs.declared.refusals.Refusal.TheVariants.{BadLine};
ghost use Rattle.model.specs.Plans.{Plan};
ghost use Rattle.texts.specs.Characters.{first};
ghost use Rattle.texts.specs.Readers.{rest_of};
ghost use Rattle.formulas.specs.Reading.{sign_code, read_switch, outcome};
ghost use Rattle.formulas.specs.Trees.{sign_byte};

use crate::signs::Sign;
use clauses::Refusal;
use plans::operands::is_signal;
use texts::{Reader, number};

// Reads a sign.
pub fn read_sign(reader: &mut Reader) -> Result<Sign, Refusal>
    ensures { MatchResult result
        (λ sign. rest_of reader.old ≡ sign_byte sign ∷ rest_of reader.new)
        (λ e. (e ≡ BadLine) × ((b : ℕ) → first (rest_of reader.old) ≡ Some b → sign_code b ≡ None)) }
{
    let character = reader.peek().ok_or(Refusal::BadLine)?;
    let sign = Sign::try_from(character)?;
    reader.skip();
    Ok(sign)
}

// Reads a ')'.
pub fn read_close(reader: &mut Reader) -> Result<(), Refusal>
    ensures { MatchResult result
        (λ _. rest_of reader.old ≡ 41 ∷ rest_of reader.new)
        (λ e. (e ≡ BadLine) × (first (rest_of reader.old) ≢ Some 41)) }
{
    match reader.peek() {
        Some(')') => {
            reader.skip();
            Ok(())
        }
        _ => Err(Refusal::BadLine),
    }
}

// Reads the number of one of the switches.
pub fn read_switch(reader: &mut Reader, switches: u16) -> Result<u32, Refusal>
    ensures { (p : Plan) → p.switches ≡ switches → outcome result (rest_of reader.new) p ≡ read_switch (rest_of reader.old) p }
{
    let signal = number(reader.digits())?;
    if !is_signal(switches, signal) {
        return Err(Refusal::NoSignal);
    }
    Ok(signal)
}
