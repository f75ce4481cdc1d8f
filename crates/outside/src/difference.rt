// In what a line of a file and the library differ.
use crate::figures::DatedDay;
use crate::library::{date_of, easter_date, number_of, weekday_of};
use days::Date;
use std::fmt;

#[derive(Clone, Copy, PartialEq, Eq, Debug)]
pub enum Difference {
    // the line is not in the form of its file
    Unreadable,
    OtherEaster(Date),
    OtherDay(DatedDay),
    // what is no date has a number all the same
    NotRefused(Date),
}

// What the file has, and what the library says.
impl fmt::Display for Difference {
    fn fmt<W: fmt::Write>(&self, f: &mut fmt::Formatter<W>) -> fmt::Result {
        match *self {
            Difference::Unreadable => {
                f.write_str("expected numbers with a space between two, found something else")
            }
            Difference::OtherEaster(date) => {
                let expected = DateText(Some(date));
                let library = DateText(easter_date(date.year));
                write!(
                    f,
                    "expected Easter on {expected}, the library says {library}"
                )
            }
            Difference::OtherDay(day) => {
                let expected = DayText {
                    number: NumberText(Some(day.number)),
                    date: DateText(Some(day.date)),
                    weekday: day.weekday,
                };
                let library = DayText {
                    number: NumberText(number_of(day.date)),
                    date: DateText(date_of(day.number)),
                    weekday: weekday_of(day.number),
                };
                write!(f, "expected {expected}, the library says {library}")
            }
            Difference::NotRefused(date) => {
                let expected = DateText(Some(date));
                let library = NumberText(number_of(date));
                write!(
                    f,
                    "expected {expected} to be refused, the library says {library}"
                )
            }
        }
    }
}

// A date as the files have it, with no zeros in front.
#[derive(Clone, Copy)]
struct DateText(Option<Date>);

impl fmt::Display for DateText {
    fn fmt<W: fmt::Write>(&self, f: &mut fmt::Formatter<W>) -> fmt::Result {
        match self.0 {
            Some(Date { year, month, day }) => write!(f, "{year}-{month}-{day}"),
            None => f.write_str("no date"),
        }
    }
}

// The number of a day, or that there is none.
#[derive(Clone, Copy)]
struct NumberText(Option<u32>);

impl fmt::Display for NumberText {
    fn fmt<W: fmt::Write>(&self, f: &mut fmt::Formatter<W>) -> fmt::Result {
        match self.0 {
            Some(number) => write!(f, "day {number}"),
            None => f.write_str("no day"),
        }
    }
}

#[derive(Clone, Copy)]
struct DayText {
    number: NumberText,
    date: DateText,
    weekday: u32,
}

impl fmt::Display for DayText {
    fn fmt<W: fmt::Write>(&self, f: &mut fmt::Formatter<W>) -> fmt::Result {
        let DayText {
            number,
            date,
            weekday,
        } = *self;
        write!(f, "{number}, {date}, weekday {weekday}")
    }
}
