// The lines with a field that is no number: the kind of a plan, the digits of a setting.
ghost use Rattle.std.specs.Prelude.{◌≡◌};
ghost use Rattle.texts.specs.Fields.{fields_behind};
ghost use Rattle.texts.specs.Lines.{all_bits, letter_form};
ghost use Rattle.texts.specs.LineStates.{formed};
ghost use Rattle.texts.specs.Readers.{rest_of};

use super::fields::{field_letter, lone_field, lone_number};
use super::{Line, PlanKind};
use crate::Reader;
use clauses::Refusal;

// p kind switches
#[tactic(auto, using(crate::proofs::LineForms::no_switches))]
pub fn plan<'a>(reader: &mut Reader<'a>) -> Result<Line<'a>, Refusal>
    ensures { formed result ≡ letter_form 112 (fields_behind (rest_of reader.old)) }
{
    let field = reader.next_field().ok_or(Refusal::BadLine)?;
    let kind = PlanKind::try_from(field_letter(field.text)?)?;
    let switches = lone_number(reader)?;
    Ok(Line::Plan(kind, switches))
}

// Whether the digits are 0 and 1 alone.
fn all_bits(digits: &[u8]) -> bool
    ensures { result ≡ all_bits digits.now }
{
    digits.iter().all(|digit| matches!(digit, b'0' | b'1'))
}

// v digits, each 0 or 1
#[tactic(auto, using(crate::proofs::LineForms::shown, crate::proofs::LineForms::not_shown))]
pub fn show<'a>(reader: &mut Reader<'a>) -> Result<Line<'a>, Refusal>
    ensures { formed result ≡ letter_form 118 (fields_behind (rest_of reader.old)) }
{
    let digits = lone_field(reader)?;
    if !all_bits(digits) {
        return Err(Refusal::BadLine);
    }
    Ok(Line::Show(digits))
}
