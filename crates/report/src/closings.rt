// The closed days of a text: an Easter rule, a list of dates and a weekday pattern.
ghost use Rattle.std.specs.Prelude.{◌≡◌, ◌≤◌, length};

use calendar::{EasterRule, WeekdayPattern};

// As many closed dates as a text has at the most.
pub(crate) const MOST_DATES: usize = 512;

// The dates stand at the front of an array and not in a short list, so that a ledger may be passed by value and used again: as
// an Easter rule, no field has a model.
#[derive(Clone, Copy)]
pub(crate) struct Closings {
    pub(crate) easter: EasterRule,
    pub(crate) pattern: WeekdayPattern,
    pub(crate) days: [u32; MOST_DATES],
    pub(crate) count: usize,
    ghost room: { length days ≡ 512 },
    ghost few: { count ≤ 512 },
}
