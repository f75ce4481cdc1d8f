// What is said of a year's days.
ghost use Rattle.std.specs.Prelude.{◌≡◌, MatchOption};
ghost use Rattle.days.specs.Calendar.{IsMonth};
ghost use Rattle.almanac.specs.Sheet.{closed_weekday, IsMonthEnd};

use calendar::{ClosedDays, Convention};
use days::{Date, Weekday, days_in_month};

// The last day of a month, whether it is closed, and where the conventions take it.
#[derive(Clone, Copy)]
pub struct MonthEnd {
    pub day: u32,
    pub closed: bool,
    pub following: Option<u32>,
    pub modified: Option<u32>,
    pub preceding: Option<u32>,
}

// Absent for what is no month of the range.
pub fn month_end_of<S: ClosedDays>(set: &S, year: u32, month: u32) -> Option<MonthEnd>
    ensures { MatchOption result (IsMonth year month → ⊥) (IsMonthEnd (S.ClosedDays.closed set.now) year month) }
{
    let length = days_in_month(year, month)?;
    let day = Date::new(year, month, length).number()?;
    Some(MonthEnd {
        day,
        closed: set.is_closed(day),
        following: Convention::Following.roll(set, day),
        modified: Convention::ModifiedFollowing.roll(set, day),
        preceding: Convention::Preceding.roll(set, day),
    })
}

// Whether a day is closed though it is no Saturday or Sunday.
pub fn is_closed_weekday<S: ClosedDays>(set: &S, day: u32) -> bool
    ensures { result ≡ closed_weekday (S.ClosedDays.closed set.now) day }
{
    let is_weekend = matches!(Weekday::of(day), Weekday::Saturday | Weekday::Sunday);
    !is_weekend && set.is_closed(day)
}
