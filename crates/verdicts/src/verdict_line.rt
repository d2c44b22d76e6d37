// Verdicts, and the line that says each.
use clauses::Refusal;
use model::Standing;

mod writing;

// How the docket stands at the end, or the first refused line and why; line 0 is the text as a whole. This is no Result:
// a refused line is an answer, with a line to print, and want of memory is the error beside it.
#[derive(Clone, Copy)]
pub enum Verdict {
    Stands(Standing),
    Refused(u16, Refusal),
}
