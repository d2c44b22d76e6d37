// Prints the operator tables that the clauses come from, for a person to read.
#![tactic(auto)]

mod text;

use gates::{GateKind, TwoInput, Wide};
use std::io;

fn print_kind<G: GateKind>(rt: &HostRuntime, title: &str, names: &[char]) -> io::Result<()> {
    println!(rt; "{title}")?;
    for code in 0..G::CODES {
        let line = text::line::<G>(rt.alloc(), names, code)?;
        println!(rt; "{line}")?;
    }
    Ok(())
}

fn main(rt: HostRuntime) -> io::Result<()> {
    print_kind::<TwoInput>(
        &rt,
        "two-input gates: code, operands, truth values, patterns",
        &['l', 'r'],
    )?;
    println!(rt; "")?;
    print_kind::<Wide>(
        &rt,
        "wide gates: code, operands, truth values, patterns",
        &['a', 'b', 'c', 'd', 'e', 'f', 'g', 'h'],
    )
}
