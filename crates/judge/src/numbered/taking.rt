// One line after another, and the verdict that stops at one.
ghost use Rattle.std.specs.Prelude.{◌≡◌, ◌+◌, ◌≤◌, length};
ghost use Rattle.clauses.specs.declared.refusals.Refusal.TheVariants.{OutOfPlace};
ghost use Rattle.verdicts.specs.declared.verdict_line.Verdict.TheVariants.{Refused};
ghost use Rattle.judge.specs.Judging.{forms_of};
ghost use Rattle.judge.specs.LineStates.{left, Takes};

use super::NumberedLines;
use clauses::Refusal;
use texts::{Line, Reader, read_line};
use verdicts::Verdict;

impl<'a> NumberedLines<'a> {
    // The lines of a text, none of them taken.
    pub fn new(text: &'a [u8]) -> NumberedLines<'a>
        requires { length text.now ≤ 32768 }
        ensures lines { left result ≡ forms_of text.now }
        ensures number { result.number ≡ 0 }
    {
        NumberedLines {
            reader: Reader::new(text),
            number: 0,
        }
    }

    // The next line, if one is left. Lines are counted here, since the count goes on over the loops of plan and steps.
    pub fn take(&mut self) -> Option<Result<Line<'a>, Refusal>>
        ensures { Takes result self.old self.new }
    {
        let line = self.reader.next_line()?;
        self.number += 1;
        Some(line.and_then(|line| read_line(line)))
    }

    // The line that was last taken is refused.
    pub fn refused(&self, refusal: Refusal) -> Verdict
        ensures { result ≡ Refused self.now.number refusal }
    {
        Verdict::Refused(self.number, refusal)
    }

    // A plan that is unfinished at the end is out of place one line past the last.
    pub fn unfinished(&self) -> Verdict
        ensures { result ≡ Refused (self.now.number + 1) OutOfPlace }
    {
        Verdict::Refused(self.number + 1, Refusal::OutOfPlace)
    }
}
