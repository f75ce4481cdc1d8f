// What is printed: the bond, and for each call its answer and the table of the holders.
use crate::bond::RATE;
use crate::journal::Journal;
use crate::line::Line;
use counts::DayCount;
use days::{Date, DateOrNone, Refusal};
use register::{Call, Row, ticks_per_unit};
use schedules::Deal;
use std::io;

pub fn print_heading<D: DayCount>(rt: &HostRuntime, basis: &D, deal: &Deal) -> io::Result<()> {
    println!(rt; "Half a year of a bond, call by call")?;
    println!(rt; "")?;
    println!(rt;
        "Term      {} to {}, every {} months, short first period",
        DateOrNone(Date::of(deal.start)),
        DateOrNone(Date::of(deal.end)),
        deal.months
    )?;
    println!(rt;
        "Closed    Saturdays, Sundays, Good Friday and Easter Monday; modified following"
    )?;
    println!(rt;
        "Interest  {RATE}/100000 a year, actual/360; {} ticks are one minor unit",
        ticks_per_unit(basis)
    )
}

pub fn print_schedule(rt: &HostRuntime, dates: &[u32]) -> io::Result<()> {
    print!(rt; "Dates   ")?;
    for date in dates {
        print!(rt; "  {}", DateOrNone(Date::of(*date)))?;
    }
    println!(rt; "")?;
    println!(rt; "")
}

pub fn print_legend<D: DayCount>(rt: &HostRuntime, basis: &D) -> io::Result<()> {
    println!(rt; "The two sides of the interest equation, in ticks:")?;
    println!(rt;
        "  left   (paid + due) x {} + ticks, from the register's rows",
        ticks_per_unit(basis)
    )?;
    println!(rt;
        "  right  holding x {RATE} x step of the day, added over the evenings passed, from the calls alone"
    )
}

// A call as a sentence, each kind with words of its own.
fn print_call(rt: &HostRuntime, call: &Call) -> io::Result<()> {
    match call {
        Call::Post => println!(rt; "post"),
        Call::Open { holdings, .. } => println!(rt; "open with holdings {holdings:?}"),
        Call::Advance { day } => println!(rt; "advance to {}", DateOrNone(Date::of(*day))),
        Call::Transfer { from, to, amount } => {
            println!(rt; "transfer {amount} from holder {from} to holder {to}")
        }
        Call::Redeem { holder, amount } => println!(rt; "redeem {amount} of holder {holder}"),
        Call::Pay { holder } => println!(rt; "pay holder {holder}"),
    }
}

pub fn print_refusal(rt: &HostRuntime, refusal: Refusal) -> io::Result<()> {
    println!(rt; "   refused: {refusal}")
}

pub fn print_outcome(
    rt: &HostRuntime,
    number: usize,
    call: &Call,
    answer: Result<u64, Refusal>,
) -> io::Result<()> {
    println!(rt; "")?;
    print!(rt; "{number}. ")?;
    print_call(rt, call)?;
    match answer {
        Ok(value) => println!(rt; "   answer: {value}"),
        Err(refusal) => print_refusal(rt, refusal),
    }
}

fn print_line(rt: &HostRuntime, line: &Line) -> io::Result<()> {
    let Row {
        holding,
        paid,
        due,
        ticks,
    } = line.row;
    print!(rt; "  {holding:>8}  {paid:>5}  {due:>5}  {ticks:>13}")?;
    let verdict = if line.is_balanced() {
        "equal"
    } else {
        "DIFFERENT"
    };
    println!(rt; "  {:>13}  {:>13}  {verdict}", line.left, line.right)
}

// A line for each holder, and one for all together, whose right side is made of evenings of the nominal.
pub fn print_table<D: DayCount>(
    rt: &HostRuntime,
    basis: &D,
    rows: &[Row],
    journal: &Journal,
) -> io::Result<()> {
    println!(rt; "   holder   holding   paid    due          ticks           left          right")?;
    let mut all = Line::total(journal.all);
    for (i, (row, account)) in rows.iter().zip(&journal.holders).enumerate() {
        let line = Line::new(basis, row, *account);
        print!(rt; "   {i:>6}")?;
        print_line(rt, &line)?;
        all.add(&line);
    }
    print!(rt; "      all")?;
    print_line(rt, &all)
}
