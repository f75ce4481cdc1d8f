// The report of one deal: its schedule, its opening, the calls on it, and what the holders have in the end.
ghost use Rattle.std.specs.Prelude.{◌≡◌, ◌≤◌, length, OnOk};
ghost use Rattle.counts.specs.Counting.{asked};
ghost use Rattle.schedules.specs.Schedule.{scheduled};
ghost use Rattle.register.specs.Calls.{opening};
ghost use Rattle.register.specs.Runs.{stepped, outcome};
ghost use Rattle.register.specs.Views.{view_of};
ghost use Rattle.writing.specs.Laying.{Laid};
ghost use Rattle.report.specs.Deals.{deal_at, scheduled_deal};
ghost use Rattle.report.specs.Pages.{LaidOn};
ghost use Rattle.report.specs.Parts.{holding_in, leading};
ghost use Rattle.report.specs.Reports.{opening_lines, front_lines, front_view, lines_by, report_lines};

use crate::calls::lay_played;
use crate::deal_text::DealText;
use crate::drafts::refused_draft;
use crate::page::Page;
use calendar::ClosedDays;
use counts::{BondBasis, DayCount, European, actual_360, actual_365};
use register::Register;
use schedules::{Deal, schedule};
use text::{Basis, Line, Terms};
use writing::Full;

// As many dates as a schedule has at the most, and as many holders as a deal. The tables are arrays of this length: reports
// use no heap.
const MOST_DATES: usize = 481;

const MOST_HOLDERS: usize = 16;

// Copies the holdings that lines begin with into a table, and answers them.
fn copy_holdings<'a>(lines: &[Line], table: &'a mut [u64]) -> &'a [u64]
    requires { length (leading holding_in lines.now) ≤ length table.old }
    ensures copied { result.now ≡ leading holding_in lines.now }
    ensures within { length result.now ≤ length lines.now }
{
    for (i, line) in lines.iter().enumerate() {
        let Line::Holding(amount) = line else {
            return &table[..i];
        };
        table[i] = amount.value;
    }
    &table[..lines.len()]
}

fn deal_of(terms: &Terms) -> Deal
    ensures { result ≡ scheduled_deal terms.now }
{
    Deal {
        start: terms.start.value,
        end: terms.end.value,
        months: terms.months.value,
        stub: terms.stub.value,
        convention: terms.convention.value,
    }
}

// The register and the page are lent side by side: a struct of the two would be taken apart at each call. What stays of a
// lent register, its day count, is said by a clause of each function, since nothing else tells it behind a `&mut`.
impl DealText<'_> {
    // Opens the register; only a refusal is told.
    fn lay_opening<D: DayCount>(
        &self,
        register: &mut Register<D>,
        days: &[u32],
        holdings: &[u64],
        page: &mut Page,
    ) -> Result<(), Full>
        ensures basis { register.new.basis ≡ register.old.basis }
        ensures laid { LaidOn (opening_lines (outcome (asked (D.DayCount.counted register.old.basis)) D.DayCount.per (view_of register.old) (opening days.now self.now.terms.now.rate.value holdings.now)) self.now.number) page.old result page.new }
        ensures left { view_of register.new ≡ stepped (asked (D.DayCount.counted register.old.basis)) D.DayCount.per (view_of register.old) (opening days.now self.now.terms.now.rate.value holdings.now) }
    {
        match register.open(days, self.terms.rate.value, holdings) {
            Ok(_) => Ok(()),
            Err(refusal) => page.lay(&refused_draft(refusal, self.number)),
        }
    }

    // Makes the schedule and opens the register, or tells why there is none.
    fn lay_front<D: DayCount, S: ClosedDays>(
        &self,
        register: &mut Register<D>,
        set: &S,
        holdings: &[u64],
        page: &mut Page,
    ) -> Result<(), Full>
        ensures basis { register.new.basis ≡ register.old.basis }
        ensures laid { LaidOn (front_lines (asked (D.DayCount.counted register.old.basis)) D.DayCount.per (view_of register.old) self.now.terms.now.rate.value holdings.now self.now.number (scheduled (S.ClosedDays.closed set.now) (scheduled_deal self.now.terms.now) 481)) page.old result page.new }
        ensures left { OnOk result (view_of register.new ≡ front_view (asked (D.DayCount.counted register.old.basis)) D.DayCount.per (view_of register.old) self.now.terms.now.rate.value holdings.now (scheduled (S.ClosedDays.closed set.now) (scheduled_deal self.now.terms.now) 481)) }
    {
        let mut table = [0; MOST_DATES];
        match schedule(&deal_of(self.terms), set, &mut table) {
            Ok(count) => {
                let days = &table[..count];
                page.lay_dates(days)?;
                self.lay_opening(register, days, holdings, page)
            }
            Err(refusal) => page.lay(&refused_draft(refusal, self.number)),
        }
    }

    // The whole report, over a day count.
    fn lay_by<D: DayCount + Drop, S: ClosedDays>(
        &self,
        basis: D,
        set: &S,
        page: &mut Page,
    ) -> Result<(), Full>
        ensures { LaidOn (lines_by (asked (D.DayCount.counted basis)) D.DayCount.per (deal_at self.now.number self.now.terms.now self.now.behind.now) (scheduled (S.ClosedDays.closed set.now) (scheduled_deal self.now.terms.now) 481)) page.old result page.new }
    {
        let mut table = [0; MOST_HOLDERS];
        let holdings = copy_holdings(self.behind, &mut table);
        let mut register = Register::new(basis);
        self.lay_front(&mut register, set, holdings, page)?;
        let first = self.number + 1 + holdings.len() as u32;
        lay_played(&mut register, &self.behind[holdings.len()..], first, page)
    }

    // A `match` over the four bases: each runs the report over a type of its own.
    fn lay_all<S: ClosedDays>(&self, set: &S, page: &mut Page) -> Result<(), Full>
        ensures { LaidOn (report_lines (S.ClosedDays.closed set.now) (deal_at self.now.number self.now.terms.now self.now.behind.now)) page.old result page.new }
    {
        match self.terms.basis.value {
            Basis::Actual360 => self.lay_by(actual_360(), set, page),
            Basis::Actual365 => self.lay_by(actual_365(), set, page),
            Basis::BondBasis => self.lay_by(BondBasis, set, page),
            Basis::European => self.lay_by(European, set, page),
        }
    }

    // The report of the deal, over the closed days of a set; answers how many bytes it has.
    pub(crate) fn report<S: ClosedDays>(&self, set: &S, out: &mut [u8]) -> Result<usize, Full>
        ensures { Laid (report_lines (S.ClosedDays.closed set.now) (deal_at self.now.number self.now.terms.now self.now.behind.now)) out.old 0 result out.new }
    {
        let mut page = Page::new(out);
        self.lay_all(set, &mut page)?;
        Ok(page.written)
    }
}
