// Closed weekdays.
ghost use Rattle.std.specs.Prelude.{◌≡◌, ◌<◌, ◌≤◌, ◌⊎◌, MatchResult, count_ones};
ghost use Rattle.days.specs.Refusals.{told, answer};
ghost use Rattle.calendar.specs.Kinds.{pattern_closes, marks};
ghost use Rattle.calendar.specs.Closed.{range_first};
ghost use Rattle.days.specs.Calendar.{weekday_of};
ghost use Rattle.days.specs.declared.refusal.Layer.TheVariants.{Text};

use crate::closed::ClosedDays;
use days::{LAST_DAY, Refusal};

// Seven bits, Monday first (64); a bit of 1 closes that weekday. At least one weekday is open. It has no model, as an Easter
// rule has none.
#[derive(Clone, Copy)]
pub struct WeekdayPattern {
    mask: u8,
    ghost seven: { mask < 128 },
    ghost some_open: { count_ones mask ≤ 6 },
}

impl WeekdayPattern {
    // The pattern of a mask. Refused where the mask has more than seven bits, or closes all seven weekdays.
    pub fn new(mask: u8) -> Result<WeekdayPattern, Refusal>
        ensures { MatchResult result (λ pattern. (pattern.mask ≡ mask) × (mask < 128) × (count_ones mask ≤ 6)) (λ e. (told e ≡ answer 6 Text 0) × ((127 < mask) ⊎ (6 < count_ones mask))) }
    {
        if mask > 127 || mask.count_ones() > 6 {
            return Err(Refusal::ClosesWholeWeek);
        }
        Ok(WeekdayPattern { mask })
    }

    // The seven bits, of which at most six are 1.
    pub fn mask(&self) -> u8
        ensures value { result ≡ self.now.mask }
        ensures seven { result < 128 }
        ensures some_open { count_ones result ≤ 6 }
    {
        self.mask
    }
}

impl ClosedDays for WeekdayPattern {
    ghost closed = { λ pattern n. pattern_closes pattern.mask n };

    ghost lawful = { λ pattern. range_first (λ n. marks pattern.mask (weekday_of n)) };

    fn is_closed(&self, day: u32) -> bool {
        day > LAST_DAY || (self.mask >> (6 - day % 7)) % 2 == 1
    }
}
