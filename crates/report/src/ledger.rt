// A text that was read: its lines, the places of its deals among them, and its closed days.
ghost use Rattle.std.specs.Prelude.{◌≡◌, ℕ, ◌+◌, ◌<◌, ◌≤◌, length, take, drop, slice_index};
ghost use Rattle.report.specs.Deals.{starts_of};
ghost use Rattle.report.specs.Parts.{mask_of, days_of, offsets_of, holding_in, leading};

use crate::closings::Closings;
use text::{Line, Unread};

#[derive(Clone, Copy)]
pub struct Ledger<'a> {
    pub(crate) lines: &'a [Line],
    pub(crate) deals: &'a [usize],
    pub(crate) closings: Closings,
    // why the text was refused; there are no lines then. A field and no `Result` of all the fields: with that, the checker
    // proved this crate, but made no proof of some callers that keep a ledger
    pub(crate) refused: Option<Unread>,
    ghost places: { deals.now ≡ starts_of lines.now },
    ghost pattern: { closings.pattern.mask ≡ mask_of lines.now },
    ghost days: { take closings.count closings.days ≡ days_of lines.now },
    ghost offsets: { take closings.easter.count closings.easter.offsets ≡ offsets_of lines.now },
    ghost few_lines: { length lines.now ≤ 65536 },
    ghost few_holders: { (k : ℕ) → k < length (starts_of lines.now) → length (leading holding_in (drop (slice_index (starts_of lines.now) k + 1) lines.now)) ≤ 16 },
}
