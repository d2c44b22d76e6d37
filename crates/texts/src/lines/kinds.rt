// The kind of a plan by its letter.
use super::PlanKind;
use clauses::Refusal;

impl TryFrom<char> for PlanKind {
    ghost use Rattle.std.specs.Prelude.{Some};
    ghost use Rattle.texts.specs.LineParts.{Answers};
    ghost use Rattle.texts.specs.Lines.{kind_of};

    type Error = Refusal;

    ghost try_from_gives = { λ letter kind. Answers kind (kind_of (Some letter)) };

    fn try_from(letter: char) -> Result<PlanKind, Refusal> {
        match letter {
            't' => Ok(PlanKind::TwoInput),
            'w' => Ok(PlanKind::Wide),
            _ => Err(Refusal::BadLine),
        }
    }
}
