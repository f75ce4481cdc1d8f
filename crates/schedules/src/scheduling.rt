// The call that makes a schedule: it judges the deal, rolls its dates and writes the days into the caller's table.
ghost use Rattle.std.specs.Prelude.{◌≡◌, ◌≤◌, length, MatchOption};
ghost use Rattle.calendar.specs.Rolling.{rolled};
ghost use Rattle.schedules.specs.Dates.{most_dates, dates};
ghost use Rattle.schedules.specs.Outcomes.{RollsAllOrRefused, AllApart, ClashAt};
ghost use Rattle.schedules.specs.Laws.{ScheduleLaw};
ghost use Rattle.schedules.specs.Schedule.{rolled_dates, Answers, ByRule};

use crate::dates::SoundDeal;
use crate::deal::Deal;
use calendar::ClosedDays;
use days::Refusal;

// As many dates as a term has at the most: 479 months inside forty years, the start and the end.
const MOST_DATES: usize = 481;

// Rolls each date of a deal into the slot with its index.
fn roll_dates<S: ClosedDays>(it: &SoundDeal, set: &S, slots: &mut [u32]) -> Result<(), Refusal>
    requires own { length slots.old ≡ length (dates it.now.deal) }
    requires few { length slots.old ≤ most_dates }
    ensures { RollsAllOrRefused (rolled (S.ClosedDays.closed set.now) it.now.deal.convention) (dates it.now.deal) slots.new result }
{
    let inside = it.inside();
    for (index, slot) in slots.iter_mut().enumerate() {
        let date = it.date_at(inside, index as u32);
        *slot = it.deal.convention.roll_date(set, date, index as u32)?;
    }
    Ok(())
}

// The index of the first day that is also the day before it.
fn first_clash(rolled: &[u32]) -> Option<usize>
    ensures { MatchOption result (AllApart rolled.now) (ClashAt rolled.now) }
{
    let pair = rolled.windows(2).position(|pair| pair[0] == pair[1])?;
    Some(pair + 1)
}

// Makes the schedule in slots of its own, and copies it into the table if nothing is wrong.
fn lay_out<S: ClosedDays>(
    it: &SoundDeal,
    set: &S,
    slots: &mut [u32],
    table: &mut [u32],
) -> Result<usize, Refusal>
    requires own { length slots.old ≡ length (dates it.now.deal) }
    requires few { length slots.old ≤ most_dates }
    requires room { length slots.old ≤ length table.old }
    ensures { Answers (rolled_dates (S.ClosedDays.closed set.now) it.now.deal) table.old result table.new }
{
    roll_dates(it, set, slots)?;
    if let Some(index) = first_clash(slots) {
        return Err(Refusal::NeighboursOnOneDay(index as u32));
    }
    let count = slots.len();
    table[0..count].copy_from_slice(slots);
    Ok(count)
}

// Judges the deal and the room in the table, in the order of the refusals, and then makes the schedule. The set and the table
// are the caller's, and come beside the deal as the public call takes them. The slots are an array whose front is used:
// how many there are is known before the first is written.
fn make<S: ClosedDays>(deal: &Deal, set: &S, table: &mut [u32]) -> Result<usize, Refusal>
    ensures { ByRule (S.ClosedDays.closed set.now) deal.now table.old result table.new }
{
    let it = deal.judged()?;
    let count = it.count();
    if table.len() < count {
        return Err(Refusal::TableTooShort);
    }
    let mut slots = [0; MOST_DATES];
    lay_out(&it, set, &mut slots[0..count], table)
}

// Writes the schedule of a deal into the table, rising, and answers how many dates it has. Entries beyond them stay.
// Refused are, the first of these: a bad term, bad months, a table that is too short, a date with no day to roll to,
// and two neighbouring dates on one day. The table is then as it was.
pub fn schedule<S: ClosedDays>(deal: &Deal, set: &S, table: &mut [u32]) -> Result<usize, Refusal>
    ensures rule { ByRule (S.ClosedDays.closed set.now) deal.now table.old result table.new }
    ensures law { ScheduleLaw (S.ClosedDays.closed set.now) deal.now table.old result table.new }
{
    make(deal, set, table)
}

#[cfg(test)]
mod tests;
