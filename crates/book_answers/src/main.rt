// Puts both clause books through the same steps at several sizes, and prints what they answered.
#![tactic(auto)]

mod steps;

use anyhow::anyhow;
use books::{ChainedBook, NewBook, PackedBook};
use std::alloc::Global;
use steps::transcript;

// The largest book, small ones, one without cells, one without numbers, and one of neither.
const SIZES: [(u32, u32); 6] = [(2048, 6144), (9, 80), (3, 7), (4, 0), (0, 9), (0, 0)];

// What a new book of these sizes answers to the steps; `name` says which book there was no memory for.
fn answers<B: NewBook + Drop>(
    heap: Global,
    name: &str,
    numbers: u32,
    cells: u32,
) -> anyhow::Result<String> {
    let book = B::new(heap, numbers, cells).map_err(|_| anyhow!("no {name} book"))?;
    Ok(transcript(heap, book)?)
}

// Whether a book of these sizes is made, or why not.
fn making<B: NewBook + Drop>(heap: Global, numbers: u32, cells: u32) -> &'static str {
    match B::new(heap, numbers, cells) {
        Ok(_) => "made",
        Err(refusal) => refusal.words(),
    }
}

fn run(rt: &HostRuntime) -> anyhow::Result<()> {
    let heap = rt.alloc();
    for (numbers, cells) in SIZES {
        let first = answers::<PackedBook>(heap, "packed", numbers, cells)?;
        let second = answers::<ChainedBook>(heap, "chained", numbers, cells)?;
        println!(rt; "a book of {numbers} numbers and {cells} cells")?;
        print!(rt; "{first}")?;
        if first == second {
            println!(rt; "both books answer the same")?;
        } else {
            print!(rt; "the chained book answers otherwise:\n{second}")?;
        }
    }
    Ok(())
}

// Sizes past the limits: each book says why there is none.
fn refused(rt: &HostRuntime) -> anyhow::Result<()> {
    for (numbers, cells) in [(2049, 6144), (2048, 6145), (4294967295, 0)] {
        let packed = making::<PackedBook>(rt.alloc(), numbers, cells);
        let chained = making::<ChainedBook>(rt.alloc(), numbers, cells);
        println!(rt; "a book of {numbers} numbers and {cells} cells: {packed}, {chained}")?;
    }
    Ok(())
}

fn main(rt: HostRuntime) -> anyhow::Result<()> {
    run(&rt)?;
    refused(&rt)
}
