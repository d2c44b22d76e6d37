// The operands of a line.
ghost use Rattle.std.specs.Prelude.{◌≡◌};
ghost use Rattle.texts.specs.Fields.{fields_behind};
ghost use Rattle.texts.specs.LineParts.{AllOperands};
ghost use Rattle.texts.specs.LineStates.{operands_of};
ghost use Rattle.texts.specs.Readers.{rest_of};

use super::Operands;
use crate::{Reader, number};
use clauses::Refusal;
use clauses::few::Few;

impl Operands {
    // The numbers that all fields spell which are left.
    pub fn read(reader: &mut Reader<'_>) -> Result<Operands, Refusal>
        ensures { AllOperands result (fields_behind (rest_of reader.old)) }
    {
        let mut signals = Few::new();
        while let Some(field) = reader.next_field() {
            if signals.len() == 8 {
                return Err(Refusal::BadLine);
            }
            signals.push(number(field.text)?);
        }
        if signals.len() == 0 {
            return Err(Refusal::BadLine);
        }
        Ok(Operands { signals })
    }

    // The operands as a list.
    pub fn as_slice(&self) -> &[u32]
        ensures { result.now ≡ operands_of self.now }
    {
        self.signals.as_slice()
    }
}
