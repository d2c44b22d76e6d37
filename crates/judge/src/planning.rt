// Lines of a plan that is not complete.
ghost use Rattle.std.specs.Prelude.{◌≡◌};
ghost use Rattle.texts.specs.LineStates.{formed};
ghost use Rattle.judge.specs.Judging.{plan_lined, formula_line};
ghost use Rattle.judge.specs.Results.{becomes, Keeps};
ghost use Rattle.judge.specs.Growing.{Grows};

use crate::numbered::NumberedLines;
use clauses::Refusal;
use formulas::formula_of;
use gates::GateKind;
use plans::Plan;
use texts::{Line, PlanKind};
use verdicts::Verdict;

// Only a two-input plan takes a formula.
fn formula_line<G: GateKind>(plan: &mut Plan<G>, kind: PlanKind, text: &[u8]) -> Result<(), Refusal>
    ensures becomes { becomes result plan.new ≡ formula_line G.GateKind.kind kind plan.old text.now }
    ensures keeps { Keeps result plan.old plan.new }
{
    match kind {
        PlanKind::TwoInput => formula_of::<G>(plan, text),
        PlanKind::Wide => Err(Refusal::OutOfPlace),
    }
}

// Adds what a line says to the plan, if it has the form of one.
fn plan_line<G: GateKind>(
    plan: &mut Plan<G>,
    kind: PlanKind,
    line: Result<Line, Refusal>,
) -> Result<(), Refusal>
    ensures { becomes result plan.new ≡ plan_lined G.GateKind.kind kind plan.old (formed line.entry) }
{
    match line? {
        Line::Gate(code, operands) => plan.gate(code, operands.as_slice()).map(|_| ()),
        Line::Root(signal) => plan.root(signal),
        Line::Formula(text) => formula_line::<G>(plan, kind, text),
        _ => Err(Refusal::OutOfPlace),
    }
}

// Reads lines until the plan is complete or one is refused.
pub fn plan_lines<G: GateKind>(
    plan: &mut Plan<G>,
    kind: PlanKind,
    lines: &mut NumberedLines,
) -> Result<(), Verdict>
    ensures { Grows G.GateKind.kind kind result plan.old plan.new lines.old lines.new }
{
    while !plan.is_complete() {
        let Some(line) = lines.take() else {
            return Err(lines.unfinished());
        };
        if let Err(refusal) = plan_line::<G>(plan, kind, line) {
            return Err(lines.refused(refusal));
        }
    }
    Ok(())
}
