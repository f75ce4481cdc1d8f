// What the library says of a figure, in the terms of the files.
ghost use Rattle.std.specs.Prelude.{◌≡◌, Decides};
ghost use Rattle.days.specs.Calendar.{weekday_of};
ghost use Rattle.outside.specs.Exactly.{Exactly};
ghost use Rattle.outside.specs.Figures.{Dated, day_number, IsEaster, IsDatedDay};

use crate::figures::DatedDay;
use days::{Date, Weekday};

// The date of a year's Easter Sunday; none outside the library's years.
pub fn easter_date(year: u32) -> Option<Date>
    ensures { Exactly result (λ date. (date.year ≡ year) × IsEaster date) }
{
    let sunday = days::easter(year)?;
    date_of(sunday)
}

// The answers of days, with the promise that no other figure would be right.
pub fn date_of(day: u32) -> Option<Date>
    ensures { Exactly result (λ date. Dated date × (day_number date ≡ day)) }
{
    Date::of(day)
}

pub fn number_of(date: Date) -> Option<u32>
    ensures { Exactly result (λ n. Dated date × (day_number date ≡ n)) }
{
    date.number()
}

// 0 for Monday to 6 for Sunday. A number, since it is held to that of a file, which may be no weekday's.
pub fn weekday_of(day: u32) -> u32
    ensures { result ≡ weekday_of day }
{
    Weekday::of(day).into()
}

pub fn is_easter(figure: Date) -> bool
    ensures { Decides result (IsEaster figure) }
{
    easter_date(figure.year) == Some(figure)
}

// Both ways: from the number to the date, and from the date to the number.
pub fn is_dated_day(figure: DatedDay) -> bool
    ensures { Decides result (IsDatedDay figure) }
{
    date_of(figure.number) == Some(figure.date)
        && number_of(figure.date) == Some(figure.number)
        && weekday_of(figure.number) == figure.weekday
}

pub fn is_no_date(figure: Date) -> bool
    ensures { Decides result (Dated figure → ⊥) }
{
    number_of(figure).is_none()
}
