// Reading a formula: a switch's number, '-' and a formula, or '(', a formula, a sign, a formula and ')'.
ghost use Rattle.std.specs.Prelude.{◌≡◌, IfOk};
ghost use Rattle.clauses.specs.Limits.{max_nesting};
ghost use Rattle.gates.specs.TwoInput.{two_input};
ghost use Rattle.plans.specs.PlanStates.{KeepsSizes};
ghost use Rattle.texts.specs.Readers.{rest_of};
ghost use Rattle.formulas.specs.Reading.{read as read_formula, outcome, then_root, formula_answer, formula_done, formula_plan};
ghost use Rattle.formulas.specs.Trees.{ReadsExactly};

use crate::parts::{read_close, read_sign, read_switch};
use clauses::Refusal;
use clauses::limits::{MAX_NESTING, MAX_TEXT};
use gates::{GateKind, TwoInput};
use plans::Plan;
use texts::Reader;

// The operator code of 'not' among two-input gates.
const NOT: u32 = 16;

// Reads a formula that nests at most `depth` deep into gates of the plan; answers its signal.
fn read<G: GateKind>(reader: &mut Reader, depth: u8, plan: &mut Plan<G>) -> Result<u32, Refusal>
    ensures switches { plan.new.switches ≡ plan.old.switches }
    ensures reads { outcome result (rest_of reader.new) plan.new ≡ read_formula G.GateKind.kind depth (rest_of reader.old) plan.old }
{
    match reader.peek() {
        Some('-') => {
            let depth = depth.checked_sub(1).ok_or(Refusal::TooDeep)?;
            reader.skip();
            let inner = read(reader, depth, plan)?;
            plan.gate(NOT, &[inner])
        }
        Some('(') => {
            let depth = depth.checked_sub(1).ok_or(Refusal::TooDeep)?;
            reader.skip();
            let left = read(reader, depth, plan)?;
            let sign = read_sign(reader)?;
            let right = read(reader, depth, plan)?;
            read_close(reader)?;
            plan.gate(sign.code(), &[left, right])
        }
        _ => read_switch(reader, plan.switches()),
    }
}

// Reads a whole text as one formula, whose signal becomes the root.
fn read_whole<G: GateKind>(text: &[u8], plan: &mut Plan<G>) -> Result<(), Refusal>
    ensures switches { plan.new.switches ≡ plan.old.switches }
    ensures answer { result ≡ formula_done (then_root (read_formula G.GateKind.kind max_nesting text.now plan.old)) }
    ensures granted { plan.new ≡ formula_plan (then_root (read_formula G.GateKind.kind max_nesting text.now plan.old)) plan.new }
    ensures sizes { IfOk result (λ _. KeepsSizes plan.new) }
{
    let mut reader = Reader::new(text);
    let signal = read(&mut reader, MAX_NESTING as u8, plan)?;
    if reader.peek().is_some() {
        return Err(Refusal::BadLine);
    }
    plan.root(signal)
}

// Reads a whole text as one formula; refused, the plan is as it was.
pub fn formula_of<G: GateKind>(plan: &mut Plan<G>, text: &[u8]) -> Result<(), Refusal>
    ensures switches { plan.new.switches ≡ plan.old.switches }
    ensures answer { result ≡ formula_done (formula_answer G.GateKind.kind plan.old text.now) }
    ensures after { plan.new ≡ formula_plan (formula_answer G.GateKind.kind plan.old text.now) plan.old }
    ensures sizes { KeepsSizes plan.new }
{
    if plan.is_complete() || !plan.gates().is_empty() {
        return Err(Refusal::OutOfPlace);
    }
    if text.len() > MAX_TEXT {
        return Err(Refusal::LongText);
    }
    let read = read_whole(text, plan);
    if read.is_err() {
        plan.clear();
    }
    read
}

// The formula call of a two-input plan, in place of gates and root; of these plans it is said which texts are formulas.
pub fn formula(plan: &mut Plan<TwoInput>, text: &[u8]) -> Result<(), Refusal>
    ensures answer { result ≡ formula_done (formula_answer two_input plan.old text.now) }
    ensures after { plan.new ≡ formula_plan (formula_answer two_input plan.old text.now) plan.old }
    ensures sizes { KeepsSizes plan.new }
    ensures exact { ReadsExactly plan.old text.now result plan.new }
{
    formula_of(plan, text)
}
