// Judges texts with both clause books, and prints each one's name and verdict line.
#![tactic(auto)]

mod formula_texts;
mod full_books;
mod line_forms;
mod line_places;
mod long_clauses;
mod long_texts;
mod nested_formulas;
mod parts;
mod plan_texts;
mod steps;
mod verdict_texts;

use anyhow::anyhow;
use books::{ChainedBook, NewBook, PackedBook};
use clauses::few::Few;
use judge::verdict_line;
use judge::verdict_lines::NoMemory;
use parts::{Part, joined};
use std::alloc::Global;
use std::io::Write;

// The verdict line on a text with a new book; `name` says which book there was no memory for.
fn line_with<B: NewBook + Drop>(
    heap: Global,
    name: &str,
    text: &[u8],
) -> anyhow::Result<Few<u8, 32>> {
    verdict_line::<B>(heap, text).map_err(|missing| match missing {
        NoMemory::ForBook => anyhow!("no memory for a {name} book"),
        NoMemory::ForPlan => anyhow!("no memory for a plan"),
    })
}

// Prints the line that both books give.
fn show(rt: &HostRuntime, name: &str, text: &[u8]) -> anyhow::Result<()> {
    let heap = rt.alloc();
    let first = line_with::<PackedBook>(heap, "packed", text)?;
    let second = line_with::<ChainedBook>(heap, "chained", text)?;
    print!(rt; "{name}: ")?;
    if first.as_slice() == second.as_slice() {
        rt.stdout().write_all(first.as_slice())?;
    } else {
        println!(rt; "the books differ")?;
    }
    Ok(())
}

fn show_all(rt: &HostRuntime, texts: &[(&str, &[u8])]) -> anyhow::Result<()> {
    for (name, text) in texts {
        show(rt, name, text)?;
    }
    Ok(())
}

fn show_long(rt: &HostRuntime, texts: &[(&str, &[Part])]) -> anyhow::Result<()> {
    for (name, parts) in texts {
        let text = joined(rt.alloc(), parts)?;
        show(rt, name, text.as_slice())?;
    }
    Ok(())
}

fn main(rt: HostRuntime) -> anyhow::Result<()> {
    show_all(&rt, &line_forms::TEXTS)?;
    show_all(&rt, &line_places::TEXTS)?;
    show_all(&rt, &plan_texts::TEXTS)?;
    show_all(&rt, &formula_texts::TEXTS)?;
    show_all(&rt, &steps::TEXTS)?;
    show_all(&rt, &verdict_texts::TEXTS)?;
    show_long(&rt, &long_texts::TEXTS)?;
    show_long(&rt, &nested_formulas::TEXTS)?;
    show_long(&rt, &full_books::TEXTS)?;
    show_long(&rt, &long_clauses::TEXTS)
}
