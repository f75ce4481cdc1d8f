// A statement: the reports on all deals of a text, one after another, or the line that tells its fault.
#![tactic(auto)]

ghost use Rattle.std.specs.Prelude.{◌≤◌, length};

use anyhow::anyhow;
use days::Refusal;
use report::{Ledger, Stopped, fault_line};
use std::alloc::Global;
use std::io::Write;
use text::{Fault, Line, Unread, count_lines};

// A report has this much room, and so has the longest text.
const PAGE: usize = 65_536;

// Where a statement ends: behind its last deal without a word, and elsewhere with the line that tells the fault.
fn print_fault<W: Write>(fault: &Fault, page: &mut [u8], out: &mut W) -> anyhow::Result<()> {
    if fault.refusal == Refusal::NoSuchDeal {
        return Ok(());
    }
    let end = fault_line(fault, page).map_err(|_| anyhow!("the page has no room for a line"))?;
    Ok(out.write_all(&page[..end])?)
}

// The whole lines before the stop, and then the end. The page is work space and `out` the caller's: a struct of both would be
// taken apart again in each function.
fn print_end<W: Write>(stopped: &Stopped, page: &mut [u8], out: &mut W) -> anyhow::Result<()>
    requires { stopped.now.written ≤ length page.old }
{
    out.write_all(&page[..stopped.written])?;
    match &stopped.why {
        Unread::NoRoom => Err(anyhow!("the tables have no room for the text")),
        Unread::Faulty(fault) => print_fault(fault, page, out),
    }
}

// The reports from deal 0 on, until there is none. A text has no more deals than lines.
fn print_reports<W: Write>(
    ledger: &Ledger,
    most: usize,
    page: &mut [u8],
    out: &mut W,
) -> anyhow::Result<()> {
    for deal in 0..most {
        match ledger.report(deal, page) {
            Ok(end) => out.write_all(&page[..end])?,
            Err(stopped) => return print_end(&stopped, page, out),
        }
    }
    Ok(())
}

// Prints the statement of a text.
pub fn print_statement<W: Write>(heap: Global, text: &[u8], out: &mut W) -> anyhow::Result<()> {
    let count = count_lines(text);
    let mut lines = vec![in heap; Line::Posting; count]?;
    let mut deals = vec![in heap; 0usize; count]?;
    let mut page = vec![in heap; 0u8; PAGE]?;
    let ledger = Ledger::read(text, &mut lines, &mut deals);
    print_reports(&ledger, count.saturating_add(1), &mut page, out)
}

#[cfg(test)]
mod tests;
