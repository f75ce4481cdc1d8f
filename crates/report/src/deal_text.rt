// A deal as it stands in a text.
ghost use Rattle.std.specs.Prelude.{◌+◌, ◌-◌, ◌^◌, ◌<◌, ◌≤◌, length};
ghost use Rattle.report.specs.Parts.{holding_in, leading};

use text::{Line, Terms};

// The terms of a deal, the number of its line, and the lines behind it, which are lent whole: the holdings and the calls
// of the deal are those that they begin with.
#[derive(Clone, Copy)]
pub(crate) struct DealText<'a> {
    pub(crate) terms: &'a Terms,
    pub(crate) number: u32,
    pub(crate) behind: &'a [Line],
    ghost few: { length (leading holding_in behind.now) ≤ 16 },
    ghost within: { number + length behind.now < 2 ^ 32 - 1 },
}
