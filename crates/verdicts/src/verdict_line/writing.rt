// Writing the line of a verdict.
ghost use Rattle.std.specs.Prelude.{◌≡◌, ◌+◌, ◌≤◌, ◌++◌, length, decimal};
ghost use Rattle.clauses.specs.Buffers.{written_over};
ghost use Rattle.clauses.specs.Few.{items_of};
ghost use Rattle.verdicts.specs.Verdicts.{spaced, verdict_text};

use super::Verdict;
use clauses::buffers::copy_at;
use clauses::few::Few;
use model::Standing;

// Adds the decimal digits of `number` to the line, the last one after the others. Not by `write!`, which would answer a Result
// for a line that has room by its contract.
#[tactic(auto, using(crate::proofs::LineParts::length_step))]
fn put_digits(number: u16, line: &mut Few<u8, 32>)
    requires { length (items_of line.old) + length (decimal number) ≤ 32 }
    ensures { items_of line.new ≡ items_of line.old ++ decimal number }
{
    if number >= 10 {
        put_digits(number / 10, line);
    }
    line.push(b'0' + (number % 10) as u8);
}

// Adds a blank and a number to the line.
fn put_spaced(number: u16, line: &mut Few<u8, 32>)
    requires { length (items_of line.old) + 6 ≤ 32 }
    ensures within { length (items_of line.new) ≤ length (items_of line.old) + 6 }
    ensures line { items_of line.new ≡ items_of line.old ++ spaced number }
{
    line.push(b' ');
    put_digits(number, line);
}

impl Verdict {
    // The line, with byte 10 at its end.
    #[tactic(auto, using(crate::proofs::LineParts::words_short, crate::proofs::LineParts::number_or_zero))]
    fn line(self) -> Few<u8, 32>
        ensures { items_of result ≡ verdict_text self }
    {
        let mut line = Few::new();
        match self {
            Verdict::Stands(standing) => {
                line.extend_from_slice(standing.words().as_bytes());
                if let Standing::Runs(count) = standing {
                    put_spaced(count, &mut line);
                }
            }
            Verdict::Refused(place, refusal) => {
                line.extend_from_slice(b"refused");
                put_spaced(place, &mut line);
                put_spaced(u16::from(refusal.number().unwrap_or(0)), &mut line);
            }
        }
        line.push(b'\n');
        line
    }

    // Writes the line to the front of a buffer of at least 32 bytes; answers its length, and leaves the rest.
    pub fn write(self, out: &mut [u8]) -> usize
        requires { 32 ≤ length out.old }
        ensures count { result ≡ length (verdict_text self) }
        ensures buffer { out.new ≡ written_over (verdict_text self) out.old }
    {
        copy_at(self.line().as_slice(), out, 0)
    }
}
