// A text opened as a ledger, and the reports of its deals.
ghost use Rattle.std.specs.Prelude.{◌≡◌, ◌<◌, ◌≤◌, [], ◌∷◌, length, take, IfOk, MatchResult, slice_index};
ghost use Rattle.text.specs.Laws.{TextLaw, GoodLines};
ghost use Rattle.text.specs.Marks.{start};
ghost use Rattle.text.specs.Meaning.{meaning};
ghost use Rattle.writing.specs.Laying.{Laid};
ghost use Rattle.std.specs.List.{slice_get};
ghost use Rattle.std.specs.Result.{result_err, result_unwrap_or};
ghost use Rattle.report.specs.Deals.{starts_of, deals_of};
ghost use Rattle.report.specs.Ledgers.{opened_text, stopped_by, DealReported, ReportOf, Reported, LawOfReport};
ghost use Rattle.report.specs.Opened.{unless_refused, opened};
ghost use Rattle.report.specs.Printed.{ft_line};

use crate::closings::Closings;
use crate::deal_text::DealText;
use crate::drafts::fault_draft;
use crate::ledger::Ledger;
use crate::stopped::Stopped;
use calendar::{DatedList, EasterRule, Union, WeekdayPattern};
use days::Refusal;
use text::{Fault, Line, Unread};
use writing::{Full, lay};

// Writes the places of the deals among the lines into a table, and answers them. The caller lends the table, so its free
// place is counted here. `gather` sees a line without its place, and does not serve.
fn index_deals<'a>(lines: &[Line], table: &'a mut [usize]) -> &'a [usize]
    requires { length lines.now ≤ length table.old }
    ensures { result.now ≡ starts_of lines.now }
{
    let mut count = 0;
    for (i, line) in lines.iter().enumerate() {
        if let Line::Deal(_) = line {
            table[count] = i;
            count += 1;
        }
    }
    &table[..count]
}

// Reads a text into the table, and answers how many lines it has, where there are as many places for its deals.
fn read_lines(text: &[u8], lines: &mut [Line], places: usize) -> Result<usize, Unread>
    ensures within { (result_unwrap_or result 0 ≤ length lines.new) × (result_unwrap_or result 0 ≤ places) × (result_unwrap_or result 0 ≤ 65536) }
    ensures opened { unless_refused (result_err result) (take (result_unwrap_or result 0) lines.new) ≡ opened_text text.now (length lines.old) places }
    ensures good { GoodLines start 1 (take (result_unwrap_or result 0) lines.new) }
    ensures law { TextLaw text.now (meaning text.now) }
{
    let count = text::read(text, lines)?;
    if places < count {
        return Err(Unread::NoRoom);
    }
    Ok(count)
}

impl<'a> Ledger<'a> {
    // Opens a text. The tables are work space: each has a place for every line of the text, or the answer is want of room.
    // Refused are, the first of these: a text that is too long, a first table that is too short, the first fault of the
    // text, and a second table that is too short.
    pub fn read(text: &[u8], lines: &'a mut [Line], deals: &'a mut [usize]) -> Ledger<'a>
        ensures value { opened result ≡ opened_text text.now (length lines.old) (length deals.old) }
        ensures law { TextLaw text.now (meaning text.now) }
    {
        let read = read_lines(text, lines, deals.len());
        // Refused, no line counts.
        let lines = &lines[..read.unwrap_or(0)];
        Ledger {
            lines,
            deals: index_deals(lines, deals),
            closings: Closings::of(lines),
            refused: read.err(),
        }
    }
}

type ClosedSet<'a> = Union<EasterRule, Union<DatedList<'a>, WeekdayPattern>>;

impl Closings {
    // The set of closed days: what the Easter rule, the list or the pattern closes.
    fn set(&self) -> ClosedSet<'_>
        ensures easter { result.first ≡ self.now.easter }
        ensures days { result.second.first.days.now ≡ take self.now.count self.now.days }
        ensures pattern { result.second.second ≡ self.now.pattern }
    {
        Union {
            first: self.easter,
            second: Union {
                first: DatedList::new(&self.days[..self.count]),
                second: self.pattern,
            },
        }
    }
}

fn stopped(refusal: Refusal, written: usize) -> Stopped
    ensures { result ≡ stopped_by refusal written }
{
    Stopped {
        why: Unread::Faulty(Fault {
            refusal,
            line: 0,
            column: 0,
        }),
        written,
    }
}

impl Ledger<'_> {
    // Where among the lines a deal stands.
    fn place_of(&self, deal: usize) -> usize
        requires { deal < length self.now.deals.now }
        ensures place { result ≡ slice_index (starts_of self.now.lines.now) deal }
        ensures inside { result < length self.now.lines.now }
        ensures few { length self.now.lines.now ≤ 65536 }
    {
        self.deals[deal]
    }

    // The report of a deal that there is.
    fn lay_deal_report(&self, deal: usize, out: &mut [u8]) -> Result<usize, Full>
        requires { deal < length self.now.deals.now }
        ensures reported { DealReported self.now.lines.now (slice_get (deals_of self.now.lines.now) deal) out.old result out.new }
        ensures within { MatchResult result (λ end. end ≤ length out.new) (λ full. full.written ≤ length out.new) }
    {
        let at = self.place_of(deal);
        match &self.lines[at] {
            Line::Deal(terms) => {
                let deal = DealText {
                    terms,
                    number: at as u32 + 1,
                    behind: &self.lines[at + 1..],
                };
                deal.report(&self.closings.set(), out)
            }
            _ => unreachable(),
        }
    }

    // The report of a deal, if there is one.
    fn report_if_any(&self, deal: usize, out: &mut [u8]) -> Result<usize, Stopped>
        ensures rule { ReportOf self.now.lines.now (slice_get (deals_of self.now.lines.now) deal) out.old result out.new }
        ensures within { MatchResult result (λ end. end ≤ length out.new) (λ stopped. stopped.written ≤ length out.new) }
    {
        if deal >= self.deals.len() {
            return Err(stopped(Refusal::NoSuchDeal, 0));
        }
        self.lay_deal_report(deal, out)
            .map_err(|full| stopped(Refusal::BufferFull, full.written))
    }

    // Lays the report of a deal, counted from 0, into the buffer, and answers how many bytes it has. Bytes beyond them stay.
    // Refused are, the first of these: a text that was refused, with nothing written; a deal that there is not, with
    // nothing written; and a line that does not fit the buffer, with the whole lines before it written.
    pub fn report(&self, deal: usize, out: &mut [u8]) -> Result<usize, Stopped>
        ensures rule { Reported (opened self.now) deal out.old result out.new }
        ensures law { LawOfReport (opened self.now) deal }
        ensures within { MatchResult result (λ end. end ≤ length out.new) (λ stopped. stopped.written ≤ length out.new) }
    {
        match self.refused {
            Some(why) => Err(Stopped { why, written: 0 }),
            None => self.report_if_any(deal, out),
        }
    }
}

// Writes the line that tells a fault: FT number line column.
pub fn fault_line(fault: &Fault, out: &mut [u8]) -> Result<usize, Full>
    ensures line { Laid (ft_line fault.now ∷ []) out.old 0 result out.new }
    ensures within { IfOk result (λ end. end ≤ length out.new) }
{
    lay(&fault_draft(fault), out, 0)
}
