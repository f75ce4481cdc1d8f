// Months counted from January 1900, month 0.
ghost use Rattle.std.specs.Prelude.{◌≡◌, ◌<◌, ◌≤◌};
ghost use Rattle.days.specs.Calendar.{day_of};
ghost use Rattle.schedules.specs.Dates.{month_number, on_day};

use days::{Date, FIRST_YEAR, days_in_month};

// The month that holds a day, and the day's place in it.
pub(crate) fn month_and_day(day: u32) -> (u32, u32)
    requires { day ≤ 109572 }
    ensures month { result.0 ≡ month_number day }
    ensures day { result.1 ≡ day_of day }
    ensures low { 1 ≤ result.1 }
    ensures high { result.0 < 3600 }
{
    let date = Date::of(day).unwrap();
    (12 * (date.year - FIRST_YEAR) + (date.month - 1), date.day)
}

// A day of a month, or the month's last day where it is shorter.
pub(crate) fn on_day(month: u32, day: u32) -> u32
    requires some { 1 ≤ day }
    requires within { month < 3600 }
    ensures { result ≡ on_day month day }
{
    let year = FIRST_YEAR + month / 12;
    let month_of_year = 1 + month % 12;
    let length = days_in_month(year, month_of_year).unwrap();
    Date::new(year, month_of_year, day.min(length))
        .number()
        .unwrap()
}
