// Settings packed in bytes: what they make of a plan.
ghost use Rattle.std.specs.Prelude.{◌≡◌, ◌≤◌, T, length};
ghost use Rattle.model.specs.Plans.{true_under};
ghost use Rattle.model.specs.Settings.{bit_at, setting_of, well_packed, count_on};
ghost use Rattle.plans.specs.PlanStates.{KeepsSizes};
ghost use Rattle.plans.specs.Showings.{setting_answer};

use crate::plans::Plan;
use clauses::Refusal;
use gates::nodes::value_at;
use gates::{GateKind, evaluate};

// Switches and gates of a plan together are at most this many.
const MAX_PLAN_SIGNALS: usize = 512;

// Whether there are as many bytes as the switches need, and no spare bit is set.
fn well_packed(switches: u16, setting: &[u8]) -> bool
    requires { 1 ≤ switches }
    ensures { result ≡ well_packed switches setting.now }
{
    let last = (switches as usize - 1) / 8;
    if setting.len() != last + 1 {
        return false;
    }
    let used = (switches - 1) % 8 + 1;
    (setting[last] as u16) >> used == 0
}

// The bit at a place, counted from 0 over all bytes.
fn bit_at(setting: &[u8], place: usize) -> bool
    ensures { result ≡ bit_at setting.now place }
{
    match setting.get(place / 8) {
        Some(byte) => (*byte >> (place % 8) as u8) & 1 == 1,
        None => false,
    }
}

// Takes a packed setting apart.
fn unpack(setting: &[u8], values: &mut [bool])
    ensures { values.new ≡ setting_of (length values.old) setting.now }
{
    for (place, value) in values.iter_mut().enumerate() {
        *value = bit_at(setting, place);
    }
}

// How many switches are on: the ones in the bytes.
fn count_on(switches: u16, setting: &[u8]) -> u16
    requires some { 1 ≤ switches }
    requires packed { T (well_packed switches setting.now) }
    ensures { result ≡ count_on (setting_of switches setting.now) }
{
    setting.iter().map(|byte| byte.count_ones() as u16).sum()
}

// Whether a plan is true under a packed setting.
fn true_under<G: GateKind>(plan: &Plan<G>, setting: &[u8]) -> bool
    ensures { result ≡ true_under G.GateKind.kind plan.now (setting_of plan.now.switches setting.now) }
{
    let Some(root) = plan.root_signal() else {
        return false;
    };
    // As many as a plan can have: values are evaluated over slices, and no memory may be taken here.
    let mut values = [false; MAX_PLAN_SIGNALS];
    let switches = plan.switches() as usize;
    let signals = plan.signals() as usize;
    unpack(setting, &mut values[0..switches]);
    evaluate::<G>(plan.gates(), switches, &mut values[0..signals]);
    value_at(&values[0..signals], root)
}

// How many switches are on in a setting that makes the plan true.
pub fn shown<G: GateKind>(plan: &Plan<G>, setting: &[u8]) -> Result<u16, Refusal>
    ensures answer { result ≡ setting_answer G.GateKind.kind plan.now setting.now }
    ensures sizes { KeepsSizes plan.now }
{
    if !well_packed(plan.switches(), setting) {
        return Err(Refusal::Setting);
    }
    if !true_under(plan, setting) {
        return Err(Refusal::PlanFalse);
    }
    Ok(count_on(plan.switches(), setting))
}
