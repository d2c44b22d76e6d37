// Lines and fields, handed out as parts of the text.
ghost use Rattle.std.specs.Prelude.{◌≡◌, ◌==◌, ◌∷◌, position};
ghost use Rattle.texts.specs.Fields.{fields_behind, HandsField};
ghost use Rattle.texts.specs.LineStates.{HandsOut};
ghost use Rattle.texts.specs.Lines.{fields_of, lines_of};
ghost use Rattle.texts.specs.Readers.{rest_of};

use super::{Field, Reader};
use clauses::Refusal;

impl<'a> Reader<'a> {
    // How far on the next such byte stands, if there is one.
    fn find(&self, stop: u8) -> Option<usize>
        ensures { result ≡ position (λ b. b == stop) (rest_of self.now) }
    {
        self.rest().iter().position(|byte| *byte == stop)
    }

    // The next line without its byte 10, if one is left; one that byte 10 does not end is refused.
    #[tactic(auto, using(crate::proofs::Parting::line_at, crate::proofs::Parting::line_left, crate::proofs::Parting::no_lines_behind))]
    pub fn next_line(&mut self) -> Option<Result<&'a [u8], Refusal>>
        ensures { HandsOut result (lines_of (rest_of self.old)) (lines_of (rest_of self.new)) }
    {
        if self.rest().is_empty() {
            return None;
        }
        let Some(count) = self.find(b'\n') else {
            self.at = self.text.len();
            return Some(Err(Refusal::BadLine));
        };
        let line = self.take(count);
        self.skip();
        Some(Ok(line))
    }

    // The field that starts here; it goes to the next blank or to the end, and may be empty.
    #[tactic(auto, using(crate::proofs::Parting::field_at))]
    pub fn field(&mut self) -> Field<'a>
        ensures fields { fields_of (rest_of self.old) ≡ result.text.now ∷ fields_behind (rest_of self.new) }
        ensures place { result.at ≡ self.old.at }
    {
        let at = self.at;
        let count = self.find(b' ').unwrap_or(self.rest().len());
        Field {
            text: self.take(count),
            at,
        }
    }

    // The field behind the next blank, where the reader stands, if one is left.
    pub fn next_field(&mut self) -> Option<Field<'a>>
        ensures { HandsField result (fields_behind (rest_of self.old)) (fields_behind (rest_of self.new)) }
    {
        if self.rest().is_empty() {
            return None;
        }
        self.skip();
        Some(self.field())
    }
}
