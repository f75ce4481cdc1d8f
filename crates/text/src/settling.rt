// The values that a text may have, of those that words can say.
ghost use Rattle.std.specs.Prelude.{◌≡◌};
ghost use Rattle.text.specs.Fields.{settle_by};
ghost use Rattle.text.specs.Kinds.{settled, date, pattern, offset};

use crate::at::At;
use crate::fault::Fault;
use crate::kind::{Date, Judged, Offset, Pattern};
use days::Refusal;

const MOST_CLOSED_WEEKDAYS: u32 = 6;

const FURTHEST_OFFSET: i64 = 60;

// A day of the range.
impl Judged for Date {
    type Value = u32;

    ghost settles = { settled date };

    fn settled(said: Option<u32>) -> Result<u32, Refusal> {
        said.ok_or(Refusal::NoSuchDay)
    }
}

// A pattern that leaves a weekday open.
impl Judged for Pattern {
    type Value = u8;

    ghost settles = { settled pattern };

    fn settled(mask: u8) -> Result<u8, Refusal> {
        if mask.count_ones() > MOST_CLOSED_WEEKDAYS {
            return Err(Refusal::ClosesWholeWeek);
        }
        Ok(mask)
    }
}

// An offset of at most sixty days.
impl Judged for Offset {
    type Value = i32;

    ghost settles = { settled offset };

    fn settled(days: i64) -> Result<i32, Refusal> {
        if days < -FURTHEST_OFFSET || days > FURTHEST_OFFSET {
            return Err(Refusal::OffsetOutOfRange);
        }
        Ok(days as i32)
    }
}

// The value of a field, or why the text may not have it.
pub(crate) fn settle<K: Judged>(it: At<K::Said>) -> Result<At<K::Value>, Fault>
    ensures { result ≡ settle_by K.settles it }
{
    let place = it.place();
    K::settled(it.value)
        .map(|value| place.holds(value))
        .map_err(|refusal| place.refuses(refusal))
}
