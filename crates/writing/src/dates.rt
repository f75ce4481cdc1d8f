// Dates, as yyyy-mm-dd.
ghost use Rattle.std.specs.Prelude.{◌≡◌, ◌+◌, ◌<◌, ◌≤◌, ◌++◌, take};
ghost use Rattle.days.specs.Calendar.{last_day};
ghost use Rattle.writing.specs.Spelling.{two, spelled_date};

use crate::draft::Draft;
use days::Date;

impl Draft {
    // A number below a hundred, with two digits.
    fn two_digits(&mut self, n: u32)
        requires { n < 100 }
        ensures { self.new ≡ take 128 (self.old ++ two n) }
    {
        self.push(b'0' + (n / 10) as u8);
        self.push(b'0' + (n % 10) as u8);
    }

    // A day above the range of the calendar has no date, and nothing is written.
    pub fn date(&mut self, day: u32)
        ensures inside { day ≤ last_day → self.new ≡ take 128 (self.old ++ spelled_date day) }
        ensures above { last_day < day → self.new ≡ self.old }
    {
        if let Some(Date { year, month, day }) = Date::of(day) {
            self.two_digits(year / 100);
            self.two_digits(year % 100);
            self.push(b'-');
            self.two_digits(month);
            self.push(b'-');
            self.two_digits(day);
        }
    }
}
