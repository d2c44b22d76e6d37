// Judges the worked plans with both clause books, and prints each one's name and verdict line.
#![tactic(auto)]

ghost use Rattle.worked_plans.specs.WorkedPlans.{LineIs};

mod statement;
mod table;

use anyhow::anyhow;
use books::{ChainedBook, NewBook, PackedBook};
use clauses::few::Few;
use judge::judge;
use std::alloc::Global;
use std::io::Write;
use table::worked_plans;

// The line that a new book of these sizes gives.
fn line_of<B: NewBook + Drop>(
    heap: Global,
    text: &[u8],
    numbers: u32,
    cells: u32,
) -> anyhow::Result<Few<u8, 32>>
    ensures { LineIs text.now numbers cells result }
{
    let book = B::new(heap, numbers, cells).map_err(|_| anyhow!("no book"))?;
    let mut buffer = [0; 32];
    let (length, _) = judge(heap, text, book, &mut buffer).map_err(|_| anyhow!("no plan"))?;
    let mut line = Few::new();
    line.extend_from_slice(&buffer[..length]);
    Ok(line)
}

// Prints the line that both books give.
fn show(rt: &HostRuntime, name: &str, text: &[u8], numbers: u32, cells: u32) -> anyhow::Result<()> {
    let heap = rt.alloc();
    let first = line_of::<PackedBook>(heap, text, numbers, cells)?;
    let second = line_of::<ChainedBook>(heap, text, numbers, cells)?;
    print!(rt; "{name}: ")?;
    if first.as_slice() == second.as_slice() {
        rt.stdout().write_all(first.as_slice())?;
    } else {
        println!(rt; "the books differ")?;
    }
    Ok(())
}

fn main(rt: HostRuntime) -> anyhow::Result<()> {
    for (name, text, numbers, cells) in worked_plans() {
        show(&rt, name, text, *numbers, *cells)?;
    }
    Ok(())
}
