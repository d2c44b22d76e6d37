// The verdict on a text.
ghost use Rattle.std.specs.Prelude.{◌≡◌};
ghost use Rattle.judge.specs.Judging.{open_lines, begin_lines, all_lines, judged};
ghost use Rattle.judge.specs.LineStates.{left};
ghost use Rattle.judge.specs.Results.{turned_down, VerdictIs, Judges};

use crate::numbered::NumberedLines;
use crate::planning::plan_lines;
use crate::steps::step_lines;
use books::ClauseBook;
use clauses::Refusal;
use clauses::limits::MAX_TEXT;
use gates::{GateKind, TwoInput, Wide};
use plans::Plan;
use referee::Docket;
use std::alloc::Global;
use texts::{Line, PlanKind};
use verdicts::Verdict;

// A refusal with a number is a verdict; want of memory has none, and is an error.
fn turned_down<B: ClauseBook>(
    lines: &NumberedLines,
    refusal: Refusal,
    book: B,
) -> Result<(Verdict, B), (Refusal, B)>
    ensures { result ≡ turned_down lines.now.number refusal book }
{
    match refusal.number() {
        Some(_) => Ok((lines.refused(refusal), book)),
        None => Err((refusal, book)),
    }
}

// Opens a docket on a complete plan, and follows the lines that are left. (Heap, book and lines are no struct: the docket takes the book and gives it back.)
fn open_lines<G: GateKind, B: ClauseBook>(
    heap: Global,
    plan: &Plan<G>,
    book: B,
    lines: &mut NumberedLines,
) -> Result<(Verdict, B), (Refusal, B)>
    ensures { VerdictIs B.ClauseBook.meaning book (open_lines G.GateKind.kind plan.now (B.ClauseBook.meaning book) lines.old.number (left lines.old)) result }
{
    match Docket::<G, B>::open(heap, plan, book) {
        Ok(mut docket) => {
            let verdict = step_lines(&mut docket, lines);
            Ok((verdict, docket.close()))
        }
        Err((refusal, book)) => turned_down(lines, refusal, book),
    }
}

// Begins a plan, and reads its lines and those behind it. The kind's name goes beside its type: a trait that gives the name
// would be one more thing that a kind owes, for one line of the format.
fn begin_lines<G: GateKind, B: ClauseBook>(
    heap: Global,
    kind: PlanKind,
    switches: u32,
    book: B,
    lines: &mut NumberedLines,
) -> Result<(Verdict, B), (Refusal, B)>
    ensures { VerdictIs B.ClauseBook.meaning book (begin_lines G.GateKind.kind kind switches (B.ClauseBook.meaning book) lines.old.number (left lines.old)) result }
{
    // The refusal goes out with the book, so there is no `?`.
    let mut plan = match Plan::<G>::begin(heap, switches) {
        Ok(plan) => plan,
        Err(refusal) => return turned_down(lines, refusal, book),
    };
    match plan_lines::<G>(&mut plan, kind, lines) {
        Ok(()) => open_lines(heap, &plan, book, lines),
        Err(verdict) => Ok((verdict, book)),
    }
}

// The first line begins a plan.
fn all_lines<B: ClauseBook>(
    heap: Global,
    book: B,
    lines: &mut NumberedLines,
) -> Result<(Verdict, B), (Refusal, B)>
    ensures { VerdictIs B.ClauseBook.meaning book (all_lines (B.ClauseBook.meaning book) lines.old.number (left lines.old)) result }
{
    match lines.take() {
        Some(Ok(Line::Plan(PlanKind::TwoInput, switches))) => {
            begin_lines::<TwoInput, B>(heap, PlanKind::TwoInput, switches, book, lines)
        }
        Some(Ok(Line::Plan(PlanKind::Wide, switches))) => {
            begin_lines::<Wide, B>(heap, PlanKind::Wide, switches, book, lines)
        }
        Some(Err(refusal)) => Ok((lines.refused(refusal), book)),
        Some(Ok(_)) => Ok((lines.refused(Refusal::OutOfPlace), book)),
        None => Ok((lines.unfinished(), book)),
    }
}

// The verdict on a text with a book, which comes back.
pub fn verdict<B: ClauseBook>(
    heap: Global,
    text: &[u8],
    book: B,
) -> Result<(Verdict, B), (Refusal, B)>
    ensures { VerdictIs B.ClauseBook.meaning book (judged (B.ClauseBook.meaning book) text.now) result }
{
    if text.len() > MAX_TEXT {
        return Ok((Verdict::Refused(0, Refusal::LongText), book));
    }
    let mut lines = NumberedLines::new(text);
    all_lines(heap, book, &mut lines)
}

// Writes the verdict line to the front of a buffer, since it takes no memory; answers its length, and gives the book back.
pub fn judge<B: ClauseBook>(
    heap: Global,
    text: &[u8],
    book: B,
    out: &mut [u8],
) -> Result<(usize, B), (Refusal, B)>
    ensures { Judges B.ClauseBook.meaning book text.now out.old out.new result }
{
    if out.len() < 32 {
        return Err((Refusal::ShortLine, book));
    }
    let (verdict, book) = verdict(heap, text, book)?;
    Ok((verdict.write(out), book))
}
