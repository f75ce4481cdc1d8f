// Actual day counts: the days that pass.
ghost use Rattle.std.specs.Prelude.{◌≡◌, ◌≤◌};
ghost use Rattle.counts.specs.Actual.{actual_lawful};
ghost use Rattle.counts.specs.Bases.{actual};
ghost use Rattle.counts.specs.Counting.{asked};

use crate::count::DayCount;
use crate::ranged::ranged;

// The days that pass, over a year of so many days. A shorter year could not take the longest stretch of a period.
#[derive(Clone, Copy)]
pub struct Actual<const YEAR: u32> {
    ghost long: { 267 ≤ YEAR },
    ghost short: { YEAR ≤ 366 },
}

// Actual/360.
pub type Actual360 = Actual<360>;

// Actual/365 (fixed).
pub type Actual365 = Actual<365>;

pub fn actual_360() -> Actual360
    ensures { ⟦<Actual360 as DayCount>⟧.per ≡ 360 }
{
    Actual {}
}

pub fn actual_365() -> Actual365
    ensures { ⟦<Actual365 as DayCount>⟧.per ≡ 365 }
{
    Actual {}
}

fn days_passed(a: u32, b: u32) -> u32
    ensures { result ≡ asked actual a b }
{
    ranged(|from, to| to - from, a, b)
}

// The two counts answer by constants of their own, and not by one impl over any year: of a constant in a generic block
// nothing is known unless each day count, those of callers too, has to state it in a ghost member.
impl DayCount for Actual360 {
    const DENOMINATOR: u32 = 360;

    ghost counted = { λ _. actual };

    ghost per = { 360 };

    ghost lawful = { λ basis. actual_lawful 360 basis.long basis.short };

    fn per_year(&self) -> u32 {
        Self::DENOMINATOR
    }

    fn count(&self, a: u32, b: u32) -> u32 {
        days_passed(a, b)
    }
}

impl DayCount for Actual365 {
    const DENOMINATOR: u32 = 365;

    ghost counted = { λ _. actual };

    ghost per = { 365 };

    ghost lawful = { λ basis. actual_lawful 365 basis.long basis.short };

    fn per_year(&self) -> u32 {
        Self::DENOMINATOR
    }

    fn count(&self, a: u32, b: u32) -> u32 {
        days_passed(a, b)
    }
}
