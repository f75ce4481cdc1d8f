// Rolling a day off closed days.
ghost use Rattle.std.specs.Prelude.{◌≡◌, ◌+◌, ◌<◌, ◌≤◌, ok_or};
ghost use Rattle.calendar.specs.Letters.{convention_of};
ghost use Rattle.calendar.specs.Rolling.{rolled};
ghost use Rattle.calendar.specs.Refused.{RollsOrRefused};
ghost use Rattle.calendar.specs.Relations.{LeastOrNone, GreatestOrNone, RollsWithin, Rolls, KeepsOrder, EndsOpen};
ghost use Rattle.calendar.specs.declared.rolling.Convention.TheVariants.{ModifiedFollowing};

use crate::closed::ClosedDays;
use days::{LAST_DAY, Refusal, month_end};

// A day is rolled by at most this many days.
const REACH: u32 = 30;

#[derive(Clone, Copy, PartialEq, Eq, Debug)]
pub enum Convention {
    Following,
    ModifiedFollowing,
    Preceding,
    Unadjusted,
}

// A letter that names no convention.
#[derive(Clone, Copy, PartialEq, Eq, Debug)]
pub struct UnknownLetter {
    pub letter: char,
}

// The convention of a letter: F, M, P or U.
impl TryFrom<char> for Convention {
    type Error = UnknownLetter;

    ghost try_from_gives = { λ letter r. r ≡ ok_or (convention_of letter) (record { letter = letter }) };

    fn try_from(letter: char) -> Result<Convention, UnknownLetter> {
        match letter {
            'F' => Ok(Convention::Following),
            'M' => Ok(Convention::ModifiedFollowing),
            'P' => Ok(Convention::Preceding),
            'U' => Ok(Convention::Unadjusted),
            _ => Err(UnknownLetter { letter }),
        }
    }
}

impl Convention {
    // The day that a day rolls to; absent where there is no open day in reach, or the day is above the range.
    pub fn roll<S: ClosedDays>(self, set: &S, day: u32) -> Option<u32>
        ensures value { result ≡ rolled (S.ClosedDays.closed set.now) self day }
        ensures extreme { Rolls (S.ClosedDays.closed set.now) self day result }
        ensures order { KeepsOrder (S.ClosedDays.closed set.now) self }
        ensures ends_open { EndsOpen (S.ClosedDays.closed set.now) self }
    {
        if day > LAST_DAY {
            return None;
        }
        roll_within(self, set, day)
    }

    // The same for the date with an index in a schedule, which is refused where there is no day.
    pub fn roll_date<S: ClosedDays>(self, set: &S, day: u32, index: u32) -> Result<u32, Refusal>
        ensures { RollsOrRefused (rolled (S.ClosedDays.closed set.now) self day) index result }
    {
        self.roll(set, day).ok_or(Refusal::NoDayToRollTo(index))
    }
}

// Two searches, one forward and one back, since the least and the greatest open day are two promises. Both walk days, by
// no index. What is asked is a set and a day, here and in every rule: no struct holds both, as the set stays and the day moves.
fn first_open<S: ClosedDays>(set: &S, low: u32, high: u32) -> Option<u32>
    requires { high ≤ 200000 }
    ensures { LeastOrNone (S.ClosedDays.closed set.now) low high result }
{
    for day in low..=high {
        if !set.is_closed(day) {
            return Some(day);
        }
    }
    None
}

fn last_open<S: ClosedDays>(set: &S, low: u32, high: u32) -> Option<u32>
    requires { high ≤ 200000 }
    ensures { GreatestOrNone (S.ClosedDays.closed set.now) low high result }
{
    for day in (low..=high).rev() {
        if !set.is_closed(day) {
            return Some(day);
        }
    }
    None
}

// Each convention looks for its day in its own way, so this is a match over the four.
fn roll_within<S: ClosedDays>(convention: Convention, set: &S, day: u32) -> Option<u32>
    requires { day ≤ 109572 }
    ensures { RollsWithin (S.ClosedDays.closed set.now) convention day result }
{
    match convention {
        Convention::Following => first_open(set, day, day + REACH),
        Convention::ModifiedFollowing => roll_modified(set, day),
        Convention::Preceding => last_open(set, day.saturating_sub(REACH), day),
        Convention::Unadjusted => Some(day),
    }
}

// Forward within the month, and back where that finds no open day.
fn roll_modified<S: ClosedDays>(set: &S, day: u32) -> Option<u32>
    requires { day ≤ 109572 }
    ensures { RollsWithin (S.ClosedDays.closed set.now) ModifiedFollowing day result }
{
    let end = month_end(day)?;
    // By `or_else` the second search would stand in a closure, which needs the bound of the day as a clause of its own.
    match first_open(set, day, end) {
        Some(open) => Some(open),
        None => last_open(set, day.saturating_sub(REACH), day),
    }
}
