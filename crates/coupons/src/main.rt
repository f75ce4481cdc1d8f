// Plays half a year of a bond. After each call it prints what the register says, beside the interest that a journal of
// evenings makes of the same calls.
#![tactic(auto)]

ghost use Rattle.std.specs.Prelude.{◌≤◌, length, IfOk};

mod bond;
mod journal;
mod line;
mod print;

use anyhow::Context;
use bond::{CALLS, DATES, Diary};
use calendar::weekends_and_easter;
use counts::actual_360;
use days::Refusal;
use journal::Journal;
use print::{
    print_heading, print_legend, print_outcome, print_refusal, print_schedule, print_table,
};
use register::{Call, play};
use schedules::{Deal, schedule};
use std::io;

// Each call is shown by playing it behind the calls before it on a new register, so that what is printed is what the
// proved call says of that list. The journal is fed the call if it was accepted.
fn print_calls(rt: &HostRuntime, calls: &[Call; CALLS]) -> io::Result<()> {
    let basis = actual_360();
    let mut journal = Journal::new();
    for (last, call) in calls.iter().enumerate() {
        let mut answers = [Ok(0); CALLS];
        let register = play(basis, &calls[..=last], &mut answers);
        let answer = answers[last];
        if answer.is_ok() {
            journal.note(&basis, call);
        }
        print_outcome(rt, last + 1, call, answer)?;
        print_table(rt, &basis, register.rows(), &journal)?;
    }
    Ok(())
}

// Writes the dates of a deal into the table, and answers how many there are.
fn write_dates(deal: &Deal, table: &mut [u32]) -> Result<usize, Refusal>
    ensures { IfOk result (λ count. count ≤ length table.new) }
{
    schedule(deal, &weekends_and_easter(), table)
}

fn print_bond(rt: &HostRuntime, diary: &Diary) -> io::Result<()> {
    let deal = diary.deal();
    // A table of the length of this schedule, which is written in place.
    let mut table = [0; DATES];
    print_heading(rt, &actual_360(), &deal)?;
    match write_dates(&deal, &mut table) {
        Ok(count) => {
            let dates = &table[..count];
            print_schedule(rt, dates)?;
            print_legend(rt, &actual_360())?;
            print_calls(rt, &diary.calls(dates))
        }
        Err(refusal) => print_refusal(rt, refusal),
    }
}

// What can fail, below a `main` that only runs it; each program has its own.
fn run(rt: &HostRuntime) -> anyhow::Result<()> {
    let diary = Diary::of_half_year().context("the diary names a day that is no date")?;
    print_bond(rt, &diary)?;
    Ok(())
}

fn main(rt: HostRuntime) -> anyhow::Result<()> {
    run(&rt)
}
