// What is printed: the counts, the sale, and what becomes of it either way.
use crate::sale::Sale;
use crate::shares::{NOMINAL, RATE, Shares, ticks_of};
use counts::{BondBasis, DayCount};
use days::{Date, DateOrNone, Refusal};
use register::ticks_per_unit;
use std::io;

fn print_count(rt: &HostRuntime, from: u32, to: u32) -> io::Result<()> {
    let days = BondBasis.count(from, to);
    println!(rt;
        "  {}  {}  {days:>4}",
        DateOrNone(Date::of(from)),
        DateOrNone(Date::of(to))
    )
}

pub fn print_counts(rt: &HostRuntime, sale: &Sale) -> io::Result<()> {
    println!(rt; "A day that is lost at a transfer, and kept by the register")?;
    println!(rt; "")?;
    println!(rt;
        "30/360 bond basis reads the second date by the first, so that parts do not add to the whole:"
    )?;
    println!(rt; "  from        to          days")?;
    print_count(rt, sale.issue, sale.seen)?;
    print_count(rt, sale.issue, sale.sold)?;
    print_count(rt, sale.sold, sale.seen)?;
    println!(rt; "")
}

pub fn print_sale(rt: &HostRuntime, sale: &Sale) -> io::Result<()> {
    println!(rt;
        "A bond of {NOMINAL} runs from {} to {} at {RATE}/100000 a year.",
        DateOrNone(Date::of(sale.issue)),
        DateOrNone(Date::of(sale.maturity))
    )?;
    println!(rt;
        "On {} holder 0 transfers all of it to holder 1.",
        DateOrNone(Date::of(sale.sold))
    )?;
    println!(rt;
        "Interest to {} in ticks, of which {} are one minor unit:",
        DateOrNone(Date::of(sale.seen)),
        ticks_per_unit(&BondBasis)
    )
}

pub fn print_refusal(rt: &HostRuntime, refusal: Refusal) -> io::Result<()> {
    println!(rt; "  refused: {refusal}")
}

fn print_shares(rt: &HostRuntime, added: &Shares, kept: &Shares) -> io::Result<()> {
    println!(rt; "            stretches added      register")?;
    println!(rt; "  holder 0  {:>15}  {:>12}", added.seller, kept.seller)?;
    println!(rt; "  holder 1  {:>15}  {:>12}", added.buyer, kept.buyer)?;
    println!(rt; "  all       {:>15}  {:>12}", added.sum(), kept.sum())?;
    println!(rt; "  days      {:>15}  {:>12}", added.days, kept.days)?;
    println!(rt; "")
}

fn print_whole(rt: &HostRuntime, sale: &Sale, kept: &Shares) -> io::Result<()> {
    let days = BondBasis.count(sale.issue, sale.seen);
    let whole = ticks_of(days);
    let verdict = if whole == kept.sum() {
        "equal"
    } else {
        "DIFFERENT"
    };
    println!(rt;
        "Without a transfer: {NOMINAL} x {RATE} x {days} = {whole}; the register's sum is {verdict}."
    )
}

fn print_short(rt: &HostRuntime, holder: u32, days: u64, ticks: u128) -> io::Result<()> {
    if ticks == 0 {
        return Ok(());
    }
    let unit = if days == 1 { "day" } else { "days" };
    println!(rt;
        "Paid by stretches, holder {holder} would be {days} {unit} short: {ticks} ticks of interest."
    )
}

pub fn print_outcome(
    rt: &HostRuntime,
    sale: &Sale,
    added: &Shares,
    kept: &Shares,
) -> io::Result<()> {
    print_shares(rt, added, kept)?;
    print_whole(rt, sale, kept)?;
    let short = added.short_of(kept);
    print_short(rt, 0, short.days, short.seller)?;
    print_short(rt, 1, short.days, short.buyer)
}
