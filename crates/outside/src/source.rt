// The files, and how a line of each is held to the library.
ghost use Rattle.std.specs.Prelude.{◌≡◌, ◌↔◌, false, MatchOption, IsOk, is_ok};
ghost use Rattle.std.specs.Option.{ForSome};
ghost use Rattle.outside.specs.Sources.{Right};

use crate::difference::Difference;
use crate::library::{is_dated_day, is_easter, is_no_date};
use crate::reading::{read_date, read_dated_day};

// There are just these three files, and each method says by a match what differs between them.
#[derive(Clone, Copy)]
pub enum Source {
    Easter,
    Dates,
    NoDates,
}

impl Source {
    pub fn file_name(self) -> &'static str {
        match self {
            Source::Easter => "easter.txt",
            Source::Dates => "dates.txt",
            Source::NoDates => "no-dates.txt",
        }
    }

    // What a line of the file stands for, in the summary.
    pub fn counted(self) -> &'static str {
        match self {
            Source::Easter => "years",
            Source::Dates => "days both ways",
            Source::NoDates => "to be refused",
        }
    }

    pub fn judge(self, line: &str) -> Result<(), Difference>
        ensures { IsOk result ↔ Right self line.now }
    {
        match self {
            Source::Easter => judge_figure(read_date(line), is_easter, Difference::OtherEaster),
            Source::Dates => judge_figure(read_dated_day(line), is_dated_day, Difference::OtherDay),
            Source::NoDates => judge_figure(read_date(line), is_no_date, Difference::NotRefused),
        }
    }
}

// Of the figure that stands on a line, or none where the line could not be read.
fn judge_figure<T: Copy, R: FnOnce(T) -> bool, D: FnOnce(T) -> Difference>(
    figure: Option<T>,
    is_right: R,
    otherwise: D,
) -> Result<(), Difference>
    requires right { ForSome figure (R.pre is_right) }
    requires otherwise { ForSome figure (D.pre otherwise) }
    ensures { MatchOption figure (is_ok result ≡ false) (λ x. R.post is_right x (is_ok result)) }
{
    let figure = figure.ok_or(Difference::Unreadable)?;
    if is_right(figure) {
        Ok(())
    } else {
        Err(otherwise(figure))
    }
}
