// Compares the library with figures that other programs made, and prints where they differ.
#![tactic(auto)]

mod difference;
mod figures;
mod library;
mod reading;
mod source;
mod tally;

use anyhow::ensure;
use source::Source;
use std::fs;
use tally::Tally;

// A wrong rule can spoil every line of a file; the first few show it.
const MOST_SHOWN: u64 = 10;

fn check_file(rt: &HostRuntime, source: Source) -> anyhow::Result<Tally> {
    let name = source.file_name();
    let text = fs::read_to_string(rt, name)?;
    let mut tally = Tally::default();
    for line in text.as_str().lines() {
        let judged = source.judge(line);
        tally.count(judged.is_ok());
        if let Err(difference) = judged
            && tally.differences() <= MOST_SHOWN
        {
            println!(rt; "{name} line {}: {difference}", tally.lines)?;
        }
    }
    if tally.lines == 0 {
        println!(rt; "{name}: expected figures, found no line")?;
    }
    let counted = source.counted();
    println!(rt;
        "{name}: {} {counted}, {} differ",
        tally.lines,
        tally.differences()
    )?;
    Ok(tally)
}

fn check_all(rt: &HostRuntime) -> anyhow::Result<()> {
    let mut all_agree = true;
    for source in [Source::Easter, Source::Dates, Source::NoDates] {
        all_agree &= check_file(rt, source)?.differences() == 0;
    }
    ensure!(all_agree, "the library and the files differ");
    Ok(())
}

fn main(rt: HostRuntime) -> anyhow::Result<()> {
    check_all(&rt)
}
