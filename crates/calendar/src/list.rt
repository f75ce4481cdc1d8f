// Closed dates, one by one.
ghost use Rattle.std.specs.Prelude.{◌≡◌};
ghost use Rattle.calendar.specs.Kinds.{list_closes, listed};
ghost use Rattle.calendar.specs.Closed.{range_first};

use crate::closed::ClosedDays;
use days::LAST_DAY;

// The days of a table of the caller's, in any order and with repeats.
#[derive(Clone, Copy)]
pub struct DatedList<'a> {
    days: &'a [u32],
}

impl<'a> DatedList<'a> {
    pub fn new(days: &'a [u32]) -> DatedList<'a>
        ensures { result.days.now ≡ days.now }
    {
        DatedList { days }
    }
}

impl<'a> ClosedDays for DatedList<'a> {
    ghost closed = { λ l n. list_closes l.days.now n };

    ghost lawful = { λ l. range_first (listed l.days.now) };

    fn is_closed(&self, day: u32) -> bool {
        day > LAST_DAY || self.days.contains(&day)
    }
}
