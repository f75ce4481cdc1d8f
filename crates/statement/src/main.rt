// Reads a text of deals from standard input, and prints its statement.
#![tactic(auto)]

use printing::print_statement;
use std::io::Read;

// One byte more than a text may have, so that a longer one is seen to be too long.
const MOST_READ: u64 = 65_537;

fn run(rt: &HostRuntime) -> anyhow::Result<()> {
    let mut text = Vec::new(rt.alloc());
    rt.stdin().take(MOST_READ).read_to_end(&mut text)?;
    print_statement(rt.alloc(), &text, &mut rt.stdout())
}

fn main(rt: HostRuntime) -> anyhow::Result<()> {
    run(&rt)
}
