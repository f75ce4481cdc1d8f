// Day numbers and dates. Day 0 is 1900-01-01, and the last day of the range is 2199-12-31.
// Years and months are counted by an index from 0 inside; index 0 is 1900, or January.
ghost use Rattle.std.specs.Prelude.{◌≡◌, ◌+◌, ◌-◌, ◌<◌, ◌≤◌, if◌then◌else◌, MatchOption};
ghost use Rattle.days.specs.Spans.{start_of};
ghost use Rattle.days.specs.Calendar.{leap, year_span, month_span, month_length, IsMonth, IsDate, number_of, date, date_of, dated, month_end_of, last_day};
ghost use Rattle.days.specs.Laws.{Lossless, DaysFollow};
ghost use Rattle.days.specs.Within.{Within};

pub const LAST_DAY: u32 = 109_572;

pub const FIRST_YEAR: u32 = 1900;

pub const LAST_YEAR: u32 = 2199;

// Before each month of a common year, and after the last.
const DAYS_BEFORE_MONTH: [u32; 13] = [0, 31, 59, 90, 120, 151, 181, 212, 243, 273, 304, 334, 365];

// Three numbers that may or may not be a date of the range.
#[derive(Clone, Copy, PartialEq, Eq, Debug)]
pub struct Date {
    pub year: u32,
    pub month: u32,
    pub day: u32,
}

fn is_leap(year: u32) -> bool
    ensures { result ≡ leap year }
{
    year % 4 == 0 && (year % 100 != 0 || year % 400 == 0)
}

// Of the years before the one with this index every fourth is a leap year, but not 1900 and not 2100.
fn days_before_year(index: u32) -> u32
    requires { index ≤ 300 }
    ensures { result ≡ start_of year_span index }
{
    365 * index + index.saturating_sub(1) / 4 - u32::from(index > 200)
}

fn days_before_month(leaps: bool, index: u32) -> u32
    requires { index ≤ 12 }
    ensures { result ≡ start_of (month_span leaps) index }
{
    DAYS_BEFORE_MONTH[index as usize] + u32::from(leaps && index > 1)
}

// The year that holds a day: 365 days a year pass at most one year too many.
fn year_index(day: u32) -> u32
    requires { day ≤ 109572 }
    ensures { (result < 300) × Within year_span day result }
{
    let guess = day / 365;
    if days_before_year(guess) > day {
        guess - 1
    } else {
        guess
    }
}

// The month that holds a day of a year: 32 days a month pass at most one month too few.
fn month_index(leaps: bool, day: u32) -> u32
    requires { day < (if leaps then 366 else 365) }
    ensures { (result < 12) × Within (month_span leaps) day result }
{
    let guess = day / 32;
    if guess < 11 && days_before_month(leaps, guess + 1) <= day {
        guess + 1
    } else {
        guess
    }
}

// Year, month and day of a day number; absent above the range.
pub fn date_of(day: u32) -> Option<(u32, u32, u32)>
    ensures value { result ≡ date_of day }
    ensures lossless { Lossless }
{
    if day > LAST_DAY {
        return None;
    }
    let index = year_index(day);
    let year = FIRST_YEAR + index;
    let leaps = is_leap(year);
    let in_year = day - days_before_year(index);
    let month = month_index(leaps, in_year);
    Some((
        year,
        month + 1,
        in_year - days_before_month(leaps, month) + 1,
    ))
}

// How many days a month has; absent for what is no month of the range.
pub fn days_in_month(year: u32, month: u32) -> Option<u32>
    ensures { MatchOption result (IsMonth year month → ⊥) (λ n. IsMonth year month × (n ≡ month_length year month)) }
{
    if year < FIRST_YEAR || year > LAST_YEAR || month < 1 || month > 12 {
        return None;
    }
    let leaps = is_leap(year);
    Some(days_before_month(leaps, month) - days_before_month(leaps, month - 1))
}

fn days_before(date: Date) -> u32
    requires { IsDate date.year date.month date.day }
    ensures { result ≡ number_of date.year date.month date.day }
{
    let before_year = days_before_year(date.year - FIRST_YEAR);
    let before_month = days_before_month(is_leap(date.year), date.month - 1);
    before_year + before_month + (date.day - 1)
}

impl Date {
    pub fn new(year: u32, month: u32, day: u32) -> Date
        ensures { result ≡ date year month day }
    {
        Date { year, month, day }
    }

    // The date of a day number; absent above the range.
    pub fn of(day: u32) -> Option<Date>
        ensures value { result ≡ dated day }
        ensures lossless { Lossless }
    {
        let (year, month, day_of_month) = date_of(day)?;
        Some(Date::new(year, month, day_of_month))
    }

    // The number of a date; absent for what is no date of the range.
    pub fn number(self) -> Option<u32>
        ensures value { MatchOption result (IsDate self.year self.month self.day → ⊥) (λ n. IsDate self.year self.month self.day × (n ≡ number_of self.year self.month self.day)) }
        ensures follow { DaysFollow }
    {
        let length = days_in_month(self.year, self.month)?;
        if self.day < 1 || self.day > length {
            return None;
        }
        Some(days_before(self))
    }
}

// The last day of the month that holds a day; absent above the range.
pub fn month_end(day: u32) -> Option<u32>
    ensures { result ≡ month_end_of day }
{
    let date = Date::of(day)?;
    let length = days_in_month(date.year, date.month)?;
    Some(day + (length - date.day))
}
