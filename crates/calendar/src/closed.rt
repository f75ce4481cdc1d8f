// The one question that is asked of a closed-day set.
ghost use Rattle.std.specs.Prelude.{◌≡◌, ℕ, Bool};
ghost use Rattle.calendar.specs.Closed.{Lawful};

// A set of closed days. It means a set of numbers that holds every number above the range of days.
pub trait ClosedDays {
    ghost closed: { Self → ℕ → Bool };

    // Whether a day is closed. Any number may be asked.
    fn is_closed(&self, day: u32) -> bool
        ensures { result ≡ closed self.now day };

    ghost lawful: { Lawful closed };
}
