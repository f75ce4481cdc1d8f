// What a line of a file tells.
use days::Date;

// A day by its number, counted from 0 at 1900-01-01, with its date and its weekday, 0 for Monday to 6 for Sunday.
// The weekday is a number, since a file may have one that is no weekday, and it is then told as it stands.
#[derive(Clone, Copy, PartialEq, Eq, Debug)]
pub struct DatedDay {
    pub number: u32,
    pub date: Date,
    pub weekday: u32,
}
