// Dates, weekdays, layers and refusals as text.
ghost use Rattle.std.specs.Prelude.{◌≡◌, ◌∷◌, [], Some};
ghost use Rattle.std.specs.Fmt.{padded};
ghost use Rattle.days.specs.Refusals.{told};
ghost use Rattle.days.specs.Texts.{date_text, date_or_none_text, weekday_name, letter, told_text};

use crate::dates::Date;
use crate::refusal::{Layer, Refusal};
use crate::week::Weekday;
use std::fmt;

// yyyy-mm-dd
impl fmt::Display for Date {
    ghost output = { λ d. Some (date_text d) };

    fn fmt<W: fmt::Write>(&self, f: &mut fmt::Formatter<W>) -> fmt::Result {
        let Date { year, month, day } = *self;
        write!(f, "{year:04}-{month:02}-{day:02}")
    }
}

// A date, or the word none.
#[derive(Clone, Copy)]
pub struct DateOrNone(pub Option<Date>);

impl fmt::Display for DateOrNone {
    ghost output = { λ d. Some (date_or_none_text d.0) };

    fn fmt<W: fmt::Write>(&self, f: &mut fmt::Formatter<W>) -> fmt::Result {
        match self.0 {
            Some(date) => write!(f, "{date}"),
            None => write!(f, "none"),
        }
    }
}

impl fmt::Display for Weekday {
    ghost output = { λ day. Some (weekday_name day) };

    ghost styled_output = { λ day spec. Some (padded spec (weekday_name day)) };

    fn fmt<W: fmt::Write>(&self, f: &mut fmt::Formatter<W>) -> fmt::Result {
        f.pad(match self {
            Weekday::Monday => "Monday",
            Weekday::Tuesday => "Tuesday",
            Weekday::Wednesday => "Wednesday",
            Weekday::Thursday => "Thursday",
            Weekday::Friday => "Friday",
            Weekday::Saturday => "Saturday",
            Weekday::Sunday => "Sunday",
        })
    }
}

impl Layer {
    // T, C, D or R.
    pub fn letter(self) -> char
        ensures { result ≡ letter self }
    {
        match self {
            Layer::Text => 'T',
            Layer::Calendar => 'C',
            Layer::Deal => 'D',
            Layer::Register => 'R',
        }
    }
}

// The number, the layer and the place.
impl fmt::Display for Refusal {
    ghost output = { λ refusal. Some (told_text (told refusal)) };

    fn fmt<W: fmt::Write>(&self, f: &mut fmt::Formatter<W>) -> fmt::Result {
        let number = self.number();
        let letter = self.layer().letter();
        let place = self.place();
        write!(f, "{number}, layer {letter}, place {place}")
    }
}
