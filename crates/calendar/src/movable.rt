// Closed days at fixed distances from Easter, as Good Friday and Easter Monday.
ghost use Rattle.std.specs.Prelude.{◌≡◌, ◌≤◌, true, length, take, pos, ◌-ℤ◌, MatchResult};
ghost use Rattle.days.specs.Calendar.{year_of};
ghost use Rattle.days.specs.Easter.{easter_of};
ghost use Rattle.calendar.specs.Closed.{range_first};
ghost use Rattle.calendar.specs.Kinds.{offset_listed, easter_closes, within_sixty, all_within_sixty, ClosesAroundEaster};
ghost use Rattle.calendar.specs.Refused.{OffsetsRefused};
ghost use Rattle.shortlist.specs.Filling.{Filled};

use crate::closed::ClosedDays;
use days::{Date, Refusal, easter};

const MOST_OFFSETS: usize = 8;

// Closes, in each year, Easter plus each offset that is kept. The offsets stand at the front of an array, and zeros behind
// them. It is no short list and has no model: a `Union` or another struct with a field that has one is not proved where it is
// passed by value and used again.
#[derive(Clone, Copy)]
pub struct EasterRule {
    offsets: [i32; MOST_OFFSETS],
    count: usize,
    ghost filled: { Filled 8 (pos 0) offsets count },
}

impl EasterRule {
    // A rule for up to 8 offsets from -60 to +60. An offset out of that range is refused first, then a ninth.
    pub fn new(offsets: &[i32]) -> Result<EasterRule, Refusal>
        ensures { MatchResult result (λ rule. (take rule.count rule.offsets ≡ offsets.now) × ClosesAroundEaster (easter_closes offsets.now) offsets.now × (all_within_sixty offsets.now ≡ true) × (length offsets.now ≤ 8)) (λ e. OffsetsRefused e offsets.now) }
    {
        if !all_within_sixty(offsets) {
            return Err(Refusal::OffsetOutOfRange);
        }
        let count = offsets.len();
        if count > MOST_OFFSETS {
            return Err(Refusal::TooMany);
        }
        let mut kept = [0; MOST_OFFSETS];
        kept[..count].copy_from_slice(offsets);
        Ok(EasterRule {
            offsets: kept,
            count,
        })
    }

    // The offsets, of which there are at most eight.
    pub fn offsets(&self) -> &[i32]
        ensures value { result.now ≡ take self.now.count self.now.offsets }
        ensures few { length result.now ≤ 8 }
    {
        &self.offsets[..self.count]
    }

    // Whether an offset is one of those kept.
    fn keeps(&self, offset: i32) -> bool
        ensures { result ≡ offset_listed (take self.now.count self.now.offsets) offset }
    {
        self.offsets().contains(&offset)
    }
}

fn is_within_sixty(offset: i32) -> bool
    ensures { result ≡ within_sixty offset }
{
    (-60..=60).contains(&offset)
}

fn all_within_sixty(offsets: &[i32]) -> bool
    ensures { result ≡ all_within_sixty offsets.now }
{
    offsets.iter().all(|offset| is_within_sixty(*offset))
}

impl ClosedDays for EasterRule {
    ghost closed = { λ rule n. easter_closes (take rule.count rule.offsets) n };

    ghost lawful = { λ rule. range_first (λ n. offset_listed (take rule.count rule.offsets) (pos n -ℤ pos (easter_of (year_of n)))) };

    fn is_closed(&self, day: u32) -> bool {
        let Some(date) = Date::of(day) else {
            return true;
        };
        let Some(sunday) = easter(date.year) else {
            return true;
        };
        self.keeps(day as i32 - sunday as i32)
    }
}
