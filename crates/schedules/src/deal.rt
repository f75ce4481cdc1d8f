// A deal's term, the months between its dates, and how they are counted.
ghost use Rattle.std.specs.Prelude.{◌≡◌, MatchResult};
ghost use Rattle.schedules.specs.Dates.{good_term, good_months};
ghost use Rattle.schedules.specs.Judged.{IsGood, RefusedDeal};

use crate::dates::SoundDeal;
use calendar::Convention;
use days::{LAST_DAY, Refusal};

// The longest term, in days: forty years of 365.
const LONGEST_TERM: u32 = 14_600;

// Which of the periods may be shorter than the others.
#[derive(Clone, Copy, PartialEq, Eq, Debug)]
pub enum Stub {
    // the first: dates are counted back from the end
    ShortFirst,
    // the last: dates are counted forward from the start
    ShortLast,
}

#[derive(Clone, Copy)]
pub struct Deal {
    pub start: u32,
    pub end: u32,
    pub months: u64,
    pub stub: Stub,
    pub convention: Convention,
}

impl Deal {
    fn has_good_term(&self) -> bool
        ensures { result ≡ good_term self.now }
    {
        self.start < self.end && self.end - self.start <= LONGEST_TERM && self.end <= LAST_DAY
    }

    fn has_good_months(&self) -> bool
        ensures { result ≡ good_months self.now.months }
    {
        matches!(self.months, 1 | 2 | 3 | 4 | 6 | 12)
    }

    // Judged by the term first, and then by the months.
    pub(crate) fn judged(&self) -> Result<SoundDeal, Refusal>
        ensures { MatchResult result (λ it. (it.deal ≡ self.now) × IsGood self.now) (RefusedDeal self.now) }
    {
        if !self.has_good_term() {
            return Err(Refusal::BadTerm);
        }
        if !self.has_good_months() {
            return Err(Refusal::BadMonths);
        }
        Ok(SoundDeal { deal: *self })
    }
}
