// The one question that is asked of a day count, and its denominator.
ghost use Rattle.std.specs.Prelude.{◌≡◌, ℕ, ◌≤◌};
ghost use Rattle.counts.specs.Counting.{asked, Lawful};

// A day count. It means a number for each two days in order, with the laws that interest rests on.
pub trait DayCount {
    const DENOMINATOR: u32;

    ghost counted: { Self → ℕ → ℕ → ℕ };

    ghost per: { ℕ };

    // The denominator: how many counted days make a year.
    fn per_year(&self) -> u32
        ensures value { result ≡ per }
        ensures bound { (1 ≤ result) × (result ≤ 366) };

    // The count from day a to day b; 0 where they are not in order, or not both in the range.
    fn count(&self, a: u32, b: u32) -> u32
        ensures { result ≡ asked (counted self.now) a b };

    ghost lawful: { (basis : Self) → Lawful (counted basis) per };
}
