// The sheet of a year as text.
use crate::sheet::{MonthEnd, is_closed_weekday, month_end_of};
use calendar::{ClosedDays, weekends_and_easter};
use days::{Date, DateOrNone, Weekday, easter};
use figures::worked_figures;
use std::io;

fn date_of(day: Option<u32>) -> DateOrNone {
    DateOrNone(day.and_then(Date::of))
}

// The set and the year are two parameters here and below: a struct of them would name nothing that the sheet speaks of.
fn print_closed_weekdays<S: ClosedDays>(rt: &HostRuntime, set: &S, year: u32) -> io::Result<()> {
    let (january_1, december_31) = (Date::new(year, 1, 1), Date::new(year, 12, 31));
    let (Some(first), Some(last)) = (january_1.number(), december_31.number()) else {
        return Ok(());
    };
    println!(rt; "Closed from Monday to Friday")?;
    for day in first..=last {
        if is_closed_weekday(set, day) {
            println!(rt; "  {}  {}", date_of(Some(day)), Weekday::of(day))?;
        }
    }
    Ok(())
}

fn print_month_end(rt: &HostRuntime, end: &MonthEnd) -> io::Result<()> {
    let weekday = Weekday::of(end.day);
    let state = if end.closed { "closed" } else { "open" };
    print!(rt; "  {}  {weekday:<9}  {state:<6}", date_of(Some(end.day)))?;
    println!(rt;
        "  {}  {}  {}",
        date_of(end.following),
        date_of(end.modified),
        date_of(end.preceding)
    )
}

fn print_month_ends<S: ClosedDays>(rt: &HostRuntime, set: &S, year: u32) -> io::Result<()> {
    println!(rt; "Month ends")?;
    println!(rt; "  last day    weekday    state   F           M           P")?;
    for month in 1..=12 {
        if let Some(end) = month_end_of(set, year, month) {
            print_month_end(rt, &end)?;
        }
    }
    Ok(())
}

pub fn print_year(rt: &HostRuntime, year: u32) -> io::Result<()> {
    let set = weekends_and_easter();
    println!(rt; "Almanac of {year}")?;
    println!(rt; "Closed: Saturdays, Sundays, Good Friday and Easter Monday")?;
    println!(rt; "")?;
    println!(rt; "Easter Sunday: {}", date_of(easter(year)))?;
    println!(rt; "")?;
    print_closed_weekdays(rt, &set, year)?;
    println!(rt; "")?;
    print_month_ends(rt, &set, year)?;
    println!(rt; "")?;
    let count = worked_figures();
    println!(rt; "F: following   M: modified following   P: preceding")?;
    println!(rt; "The rules behind this sheet are proved to yield {count} worked figures.")
}
