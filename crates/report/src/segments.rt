// Lists of lines, laid on a page one after another. The two loops draft different lines, and one over a closure that drafts
// would be longer than both.
ghost use Rattle.std.specs.Prelude.{ℕ, ◌<◌, ◌≤◌, length, slice_index};
ghost use Rattle.report.specs.Pages.{LaidOn};
ghost use Rattle.report.specs.Printed.{sc_lines, st_lines};

use crate::drafts::{date_draft, row_draft};
use crate::page::Page;
use register::Row;
use writing::Full;

impl Page<'_> {
    // The dates of a schedule.
    pub(crate) fn lay_dates(&mut self, days: &[u32]) -> Result<(), Full>
        requires { (k : ℕ) → k < length days.now → slice_index days.now k ≤ 109572 }
        ensures { LaidOn (sc_lines 0 days.now) self.old result self.new }
    {
        for (index, day) in days.iter().enumerate() {
            self.lay(&date_draft(index as u64, *day))?;
        }
        Ok(())
    }

    // The rows of the holders.
    pub(crate) fn lay_rows(&mut self, rows: &[Row]) -> Result<(), Full>
        ensures { LaidOn (st_lines 0 rows.now) self.old result self.new }
    {
        for (holder, row) in rows.iter().enumerate() {
            self.lay(&row_draft(holder as u64, row))?;
        }
        Ok(())
    }
}
