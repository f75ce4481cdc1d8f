// What either of two sets closes: a set again.
ghost use Rattle.std.specs.Prelude.{◌||◌};
ghost use Rattle.calendar.specs.Closed.{lawful_first};

use crate::closed::ClosedDays;

#[derive(Clone, Copy, Drop)]
pub struct Union<A, B> {
    pub first: A,
    pub second: B,
}

impl<A: ClosedDays, B: ClosedDays> ClosedDays for Union<A, B> {
    ghost closed = { λ u n. A.ClosedDays.closed u.first n || B.ClosedDays.closed u.second n };

    ghost lawful = { λ u. lawful_first (A.ClosedDays.closed u.first) (B.ClosedDays.closed u.second) (A.ClosedDays.lawful u.first) };

    fn is_closed(&self, day: u32) -> bool {
        self.first.is_closed(day) || self.second.is_closed(day)
    }
}
