// Goes through a warm-oil plan that runs and one that cannot, on both kinds of gate and both clause books.
#![tactic(auto)]

mod transcript;

use anyhow::anyhow;
use books::clause_book::{MAX_CELLS, MAX_NUMBERS};
use books::{ChainedBook, NewBook, PackedBook};
use gates::{GateKind, TwoInput, Wide};
use plans::Plan;
use referee::Call;
use std::alloc::Global;
use transcript::transcript;

// Switch 1 is the heater, switch 2 says that the cooler valve is shut: if the heater is on, the valve is shut; and the heater is on.
const WARM: [(u32, &[u32]); 2] = [(13, &[1, 2]), (1, &[3, 1])];

const WARM_WIDE: [(u32, &[u32]); 3] = [(16, &[1]), (9, &[3, 2]), (1, &[4, 1])];

// The same, with the valve open.
const OPEN_VALVE: [(u32, &[u32]); 4] = [(13, &[1, 2]), (16, &[2]), (1, &[1, 4]), (1, &[3, 5])];

const OPEN_VALVE_WIDE: [(u32, &[u32]); 4] = [(16, &[1]), (9, &[3, 2]), (16, &[2]), (2, &[4, 1, 5])];

// The heater alone does not do; both switches do, and then the docket is closed.
const SHOWN: [Call; 3] = [Call::Show(&[1]), Call::Show(&[3]), Call::Strike(1)];

// Calls that are refused or not needed, and then a refutation.
const REFUTED: [Call; 12] = [
    Call::Resolve(1, 1),
    Call::Resolve(12, 9),
    Call::Resolve(12, 10),
    Call::Resolve(14, 6),
    Call::Resolve(14, 7),
    Call::Resolve(16, 5),
    Call::Resolve(13, 3),
    Call::Resolve(18, 15),
    Call::Settle(19),
    Call::Resolve(19, 17),
    Call::Settle(20),
    Call::Settle(20),
];

const REFUTED_WIDE: [Call; 14] = [
    Call::Define(8, 8, &[1]),
    Call::Define(7, 8, &[1]),
    Call::Strike(13),
    Call::Strike(13),
    Call::Resolve(12, 8),
    Call::Resolve(12, 9),
    Call::Resolve(12, 10),
    Call::Resolve(16, 2),
    Call::Resolve(17, 7),
    Call::Resolve(15, 5),
    Call::Resolve(20, 18),
    Call::Resolve(21, 19),
    Call::Settle(22),
    Call::Show(&[3]),
];

fn planned<G: GateKind>(
    rt: &HostRuntime,
    gates: &[(u32, &[u32])],
    root: u32,
) -> anyhow::Result<Plan<G>> {
    let mut plan = Plan::<G>::begin(rt.alloc(), 2).map_err(|_| anyhow!("no plan"))?;
    for (code, operands) in gates {
        plan.gate(*code, operands).map_err(|_| anyhow!("no gate"))?;
    }
    plan.root(root).map_err(|_| anyhow!("no root"))?;
    Ok(plan)
}

// What a docket on a new book at its largest answers; `name` says which book or docket there was no memory for.
fn answers<G: GateKind, B: NewBook + Drop>(
    heap: Global,
    name: &str,
    plan: &Plan<G>,
    calls: &[Call],
) -> anyhow::Result<String> {
    let book = B::new(heap, MAX_NUMBERS, MAX_CELLS).map_err(|_| anyhow!("no {name} book"))?;
    let (text, _) = transcript(heap, plan, book, calls).map_err(|_| anyhow!(
        "no docket on the {name} book"
    ))?;
    Ok(text)
}

// The same calls on both books; what the packed book's docket answered is printed.
fn follow<G: GateKind>(
    rt: &HostRuntime,
    name: &str,
    plan: &Plan<G>,
    calls: &[Call],
) -> anyhow::Result<()> {
    let first = answers::<G, PackedBook>(rt.alloc(), "packed", plan, calls)?;
    let second = answers::<G, ChainedBook>(rt.alloc(), "chained", plan, calls)?;
    print!(rt; "{name}\n{first}")?;
    if first == second {
        println!(rt; "both books answer the same")?;
    } else {
        print!(rt; "the chained book answers otherwise:\n{second}")?;
    }
    Ok(())
}

fn main(rt: HostRuntime) -> anyhow::Result<()> {
    let warm = planned::<TwoInput>(&rt, &WARM, 4)?;
    follow(&rt, "warm oil, two-input", &warm, &SHOWN)?;
    let warm_wide = planned::<Wide>(&rt, &WARM_WIDE, 5)?;
    follow(&rt, "warm oil, wide", &warm_wide, &SHOWN)?;
    let refuted = planned::<TwoInput>(&rt, &OPEN_VALVE, 6)?;
    follow(
        &rt,
        "warm oil with the valve open, two-input",
        &refuted,
        &REFUTED,
    )?;
    let refuted_wide = planned::<Wide>(&rt, &OPEN_VALVE_WIDE, 6)?;
    follow(
        &rt,
        "warm oil with the valve open, wide",
        &refuted_wide,
        &REFUTED_WIDE,
    )
}
