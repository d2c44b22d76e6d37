// Reading the form of a line.
ghost use Rattle.std.specs.Prelude.{◌≡◌};
ghost use Rattle.texts.specs.Lines.{line_form};
ghost use Rattle.texts.specs.LineStates.{formed};
ghost use Rattle.texts.specs.Spelling.{LineLaw};

use super::fields::{field_letter, lone_field, lone_number, next_number};
use super::forms::{plan, show};
use super::{Line, Operands};
use crate::Reader;
use clauses::Refusal;

// The form of a line, given without its byte 10. Letters are matched as characters, one arm for each line of the format.
pub fn read_line<'a>(line: &'a [u8]) -> Result<Line<'a>, Refusal>
    ensures { formed result ≡ line_form line.now }
{
    let mut reader = Reader::new(line);
    let field = reader.field();
    match field_letter(field.text)? {
        'p' => plan(&mut reader),
        'g' => Ok(Line::Gate(next_number(&mut reader)?, Operands::read(&mut reader)?)),
        'r' => Ok(Line::Root(lone_number(&mut reader)?)),
        'f' => Ok(Line::Formula(lone_field(&mut reader)?)),
        'd' => Ok(Line::Define(
            next_number(&mut reader)?,
            next_number(&mut reader)?,
            Operands::read(&mut reader)?,
        )),
        'u' => Ok(Line::Resolve(next_number(&mut reader)?, lone_number(&mut reader)?)),
        'x' => Ok(Line::Strike(lone_number(&mut reader)?)),
        'e' => Ok(Line::Settle(lone_number(&mut reader)?)),
        'v' => show(&mut reader),
        _ => Err(Refusal::BadLine),
    }
}

// States that a line has a form exactly if it is the spelling of that form: the law is this contract.
pub fn line_law()
    ensures { LineLaw }
{}
