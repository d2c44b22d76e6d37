// Why a call or a line is refused.
ghost use Rattle.std.specs.Prelude.{◌≡◌, Some};
ghost use Rattle.clauses.specs.declared.refusals.Refusal.TheVariants.{OutOfMemory};
ghost use Rattle.clauses.specs.Refusals.{number_of, words_of};

use std::alloc::AllocError;
use std::fmt;

// Each case has a number and words, as `number_of` and `words_of` define them; want of memory has no number.
#[derive(Clone, Copy, PartialEq, Eq, Debug)]
pub enum Refusal {
    // 1 long text: more than 32,768 bytes
    LongText,
    // 2 bad line: not of a line's or a formula's form
    BadLine,
    // 3 out of place: a call or a line that is not due now
    OutOfPlace,
    // 4 too deep: nesting past 32
    TooDeep,
    // 5 size: switches, a 257th gate, or a book's size past its limit
    Size,
    // 6 operator: the kind has no such code
    Operator,
    // 7 operand count: differs from the code's
    OperandCount,
    // 8 no signal: 0 or not yet there; in a formula, no switch
    NoSignal,
    // 9 not new: not the next signal
    NotNew,
    // 10 signals spent: 1,024 are in use
    SignalsSpent,
    // 11 no clause: nothing stands there
    NoClause,
    // 12 no clash
    NoClash,
    // 13 second clash: on two signals or more
    SecondClash,
    // 14 long clause: more than 64 literals
    LongClause,
    // 15 book full: no number or too few cells left
    BookFull,
    // 16 not empty: the clause has literals
    NotEmpty,
    // 17 setting: wrong number of bytes or digits, or a spare bit set
    Setting,
    // 18 plan false: the setting does not make the plan true
    PlanFalse,
    // 19 closed: the docket is not open
    Closed,
    // 20 used book: a number was given before opening
    UsedBook,
    // 21 short line: fewer than 32 bytes to write to
    ShortLine,
    // out of memory, which has no number
    OutOfMemory,
}

impl Refusal {
    // The number that a verdict line gives; none for want of memory, so this is no conversion.
    pub fn number(self) -> Option<u8>
        ensures { result ≡ number_of self }
    {
        match self {
            Refusal::LongText => Some(1),
            Refusal::BadLine => Some(2),
            Refusal::OutOfPlace => Some(3),
            Refusal::TooDeep => Some(4),
            Refusal::Size => Some(5),
            Refusal::Operator => Some(6),
            Refusal::OperandCount => Some(7),
            Refusal::NoSignal => Some(8),
            Refusal::NotNew => Some(9),
            Refusal::SignalsSpent => Some(10),
            Refusal::NoClause => Some(11),
            Refusal::NoClash => Some(12),
            Refusal::SecondClash => Some(13),
            Refusal::LongClause => Some(14),
            Refusal::BookFull => Some(15),
            Refusal::NotEmpty => Some(16),
            Refusal::Setting => Some(17),
            Refusal::PlanFalse => Some(18),
            Refusal::Closed => Some(19),
            Refusal::UsedBook => Some(20),
            Refusal::ShortLine => Some(21),
            Refusal::OutOfMemory => None,
        }
    }

    // The words for a person.
    pub fn words(self) -> &'static str
        ensures { result.now ≡ words_of self }
    {
        match self {
            Refusal::LongText => "long text",
            Refusal::BadLine => "bad line",
            Refusal::OutOfPlace => "out of place",
            Refusal::TooDeep => "too deep",
            Refusal::Size => "size",
            Refusal::Operator => "operator",
            Refusal::OperandCount => "operand count",
            Refusal::NoSignal => "no signal",
            Refusal::NotNew => "not new",
            Refusal::SignalsSpent => "signals spent",
            Refusal::NoClause => "no clause",
            Refusal::NoClash => "no clash",
            Refusal::SecondClash => "second clash",
            Refusal::LongClause => "long clause",
            Refusal::BookFull => "book full",
            Refusal::NotEmpty => "not empty",
            Refusal::Setting => "setting",
            Refusal::PlanFalse => "plan false",
            Refusal::Closed => "closed",
            Refusal::UsedBook => "used book",
            Refusal::ShortLine => "short line",
            Refusal::OutOfMemory => "out of memory",
        }
    }
}

// Prints the words.
impl fmt::Display for Refusal {
    ghost output = { λ r. Some (words_of r) };

    fn fmt<W: fmt::Write>(&self, f: &mut fmt::Formatter<W>) -> fmt::Result {
        f.write_str(self.words())
    }
}

impl From<AllocError> for Refusal {
    ghost from_gives = { λ _ r. r ≡ OutOfMemory };

    fn from(_e: AllocError) -> Refusal {
        Refusal::OutOfMemory
    }
}

// What a call answered, as a person reads it: the number, or why it was refused.
#[derive(Clone, Copy)]
pub struct Answer(pub Result<u32, Refusal>);

impl fmt::Display for Answer {
    ghost use Rattle.clauses.specs.Answers.{answer_text};

    ghost output = { λ a. Some (answer_text a.0) };

    fn fmt<W: fmt::Write>(&self, f: &mut fmt::Formatter<W>) -> fmt::Result {
        match self.0 {
            Ok(number) => write!(f, "{number}"),
            Err(refusal) => write!(f, "refused, {refusal}"),
        }
    }
}
