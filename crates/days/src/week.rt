// The days of the week.
ghost use Rattle.std.specs.Prelude.{◌≡◌};
ghost use Rattle.days.specs.Calendar.{weekday_of};
ghost use Rattle.days.specs.Week.{index_of};

#[derive(Clone, Copy, PartialEq, Eq, Debug)]
pub enum Weekday {
    Monday,
    Tuesday,
    Wednesday,
    Thursday,
    Friday,
    Saturday,
    Sunday,
}

impl Weekday {
    // The weekday of a day number: day 0 is a Monday.
    pub fn of(day: u32) -> Weekday
        ensures { index_of result ≡ weekday_of day }
    {
        match day % 7 {
            0 => Weekday::Monday,
            1 => Weekday::Tuesday,
            2 => Weekday::Wednesday,
            3 => Weekday::Thursday,
            4 => Weekday::Friday,
            5 => Weekday::Saturday,
            _ => Weekday::Sunday,
        }
    }
}

// 0 for Monday to 6 for Sunday.
impl From<Weekday> for u32 {
    ghost from_gives = { λ weekday n. n ≡ index_of weekday };

    fn from(weekday: Weekday) -> u32 {
        weekday as u32
    }
}
