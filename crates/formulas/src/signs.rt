// The signs between two formulas: & | > < = ^
use clauses::Refusal;

// And, or, if .. then, if, the same as, different from.
#[derive(Clone, Copy)]
pub enum Sign {
    And,
    Or,
    Then,
    If,
    Same,
    Differ,
}

impl Sign {
    ghost use Rattle.std.specs.Prelude.{◌≡◌};
    ghost use Rattle.formulas.specs.Trees.{operator_code};

    // The operator code of two-input gates.
    pub fn code(self) -> u32
        ensures { result ≡ operator_code self }
    {
        match self {
            Sign::And => 1,
            Sign::Or => 7,
            Sign::Then => 13,
            Sign::If => 11,
            Sign::Same => 9,
            Sign::Differ => 6,
        }
    }
}

impl TryFrom<char> for Sign {
    type Error = Refusal;

    ghost use Rattle.std.specs.Prelude.{◌≡◌, None, MatchResult};
    ghost use Rattle.clauses.specs.declared.refusals.Refusal.TheVariants.{BadLine};
    ghost use Rattle.formulas.specs.Reading.{sign_code};
    ghost use Rattle.formulas.specs.Trees.{sign_byte};

    ghost try_from_gives = { λ c r. MatchResult r (λ s. c ≡ sign_byte s) (λ e. (e ≡ BadLine) × (sign_code c ≡ None)) };

    fn try_from(character: char) -> Result<Sign, Refusal> {
        match character {
            '&' => Ok(Sign::And),
            '|' => Ok(Sign::Or),
            '>' => Ok(Sign::Then),
            '<' => Ok(Sign::If),
            '=' => Ok(Sign::Same),
            '^' => Ok(Sign::Differ),
            _ => Err(Refusal::BadLine),
        }
    }
}
