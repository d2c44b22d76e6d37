// The parts of a line, from the fields that are left of it.
ghost use Rattle.texts.specs.Fields.{fields_behind};
ghost use Rattle.texts.specs.LineParts.{Answers, LoneField, LoneNumber, NextNumber, NoMore};
ghost use Rattle.texts.specs.Lines.{letter_of};
ghost use Rattle.texts.specs.Readers.{rest_of};

use crate::{Reader, number};
use clauses::Refusal;

// The letter of a field that has just one.
pub fn field_letter(field: &[u8]) -> Result<char, Refusal>
    ensures { Answers result (letter_of field.now) }
{
    match field {
        [letter] => Ok(*letter as char),
        _ => Err(Refusal::BadLine),
    }
}

// Refuses a line that has another field.
pub fn no_more(reader: &mut Reader<'_>) -> Result<(), Refusal>
    ensures { NoMore result (fields_behind (rest_of reader.old)) }
{
    match reader.next_field() {
        None => Ok(()),
        Some(_) => Err(Refusal::BadLine),
    }
}

// The one field that is left.
pub fn lone_field<'a>(reader: &mut Reader<'a>) -> Result<&'a [u8], Refusal>
    ensures { LoneField result (fields_behind (rest_of reader.old)) }
{
    let field = reader.next_field().ok_or(Refusal::BadLine)?;
    no_more(reader)?;
    if field.text.is_empty() {
        return Err(Refusal::BadLine);
    }
    Ok(field.text)
}

// The number that the next field spells.
#[tactic(auto, using(crate::proofs::LineNumbers::next_number))]
pub fn next_number(reader: &mut Reader<'_>) -> Result<u32, Refusal>
    ensures { NextNumber result (fields_behind (rest_of reader.old)) (fields_behind (rest_of reader.new)) }
{
    let field = reader.next_field().ok_or(Refusal::BadLine)?;
    number(field.text)
}

// The number that the one field spells which is left.
#[tactic(auto, using(crate::proofs::LineNumbers::not_lone))]
pub fn lone_number(reader: &mut Reader<'_>) -> Result<u32, Refusal>
    ensures { LoneNumber result (fields_behind (rest_of reader.old)) }
{
    let value = next_number(reader)?;
    no_more(reader)?;
    Ok(value)
}
