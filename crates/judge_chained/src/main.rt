// Judges the plan text on standard input with the chained book, and writes the verdict line.
#![tactic(auto)]

use books::ChainedBook;
use clauses::limits::MAX_TEXT;
use judge::verdict_line;
use std::io::{Read, Write};

// The other judge program has these lines with its own book. A public function for both is no plainer: it would owe a contract,
// and none can speak of standard input and output.
fn main(rt: HostRuntime) -> anyhow::Result<()> {
    let heap = rt.alloc();
    let mut text = Vec::new(heap);
    // One byte past the limit shows that a text is too long.
    let most = MAX_TEXT as u64 + 1;
    rt.stdin().take(most).read_to_end(&mut text)?;
    let line = verdict_line::<ChainedBook>(heap, text.as_slice())?;
    rt.stdout().write_all(line.as_slice())?;
    Ok(())
}
