// Shows the day that is lost where interest is counted anew from each transfer, and that the register keeps it.
#![tactic(auto)]

mod print;
mod sale;
mod shares;

use anyhow::Context;
use print::{print_counts, print_outcome, print_refusal, print_sale};
use sale::Sale;
use std::io;

fn print_all(rt: &HostRuntime, sale: &Sale) -> io::Result<()> {
    print_counts(rt, sale)?;
    print_sale(rt, sale)?;
    match sale.by_register() {
        Ok(kept) => print_outcome(rt, sale, &sale.by_stretches(), &kept),
        Err(refusal) => print_refusal(rt, refusal),
    }
}

// What can fail, below a `main` that only runs it; each program has its own.
fn run(rt: &HostRuntime) -> anyhow::Result<()> {
    let sale = Sale::in_january().context("the sale names a day that is no date")?;
    print_all(rt, &sale)?;
    Ok(())
}

fn main(rt: HostRuntime) -> anyhow::Result<()> {
    run(&rt)
}
