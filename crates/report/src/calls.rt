// The calls on a deal, made on its register one after another.
ghost use Rattle.std.specs.Prelude.{◌≡◌, ◌+◌, ◌^◌, ◌<◌, length, OnOk};
ghost use Rattle.counts.specs.Counting.{asked};
ghost use Rattle.register.specs.Runs.{run};
ghost use Rattle.register.specs.Views.{view_of};
ghost use Rattle.report.specs.Deals.{numbered};
ghost use Rattle.report.specs.Pages.{LaidOn};
ghost use Rattle.report.specs.Parts.{part, call_in, leading};
ghost use Rattle.report.specs.Reports.{call_lines, played_lines, Called};

use crate::drafts::answer_draft;
use crate::page::Page;
use counts::DayCount;
use days::Refusal;
use register::Register;
use text::Line;
use writing::Full;

// Makes the call that a line asks for; absent where it asks for none. A `match` over the kinds of lines: each calls
// another method of the register, with arguments of its own.
fn call_on<D: DayCount>(register: &mut Register<D>, line: &Line) -> Option<Result<u64, Refusal>>
    ensures basis { register.new.basis ≡ register.old.basis }
    ensures called { Called (asked (D.DayCount.counted register.old.basis)) D.DayCount.per (view_of register.old) (call_in (part line.now)) (view_of register.new) result }
{
    match line {
        Line::Posting => Some(register.post()),
        Line::Advance(day) => Some(register.advance(day.value)),
        Line::Transfer { from, to, amount } => {
            Some(register.transfer(from.value, to.value, amount.value))
        }
        Line::Redemption { holder, amount } => Some(register.redeem(holder.value, amount.value)),
        Line::Payment(holder) => Some(register.pay(holder.value)),
        _ => None,
    }
}

// Makes the calls that the lines begin with, and lays the answer to each. The first line has this number.
fn lay_calls<D: DayCount>(
    register: &mut Register<D>,
    lines: &[Line],
    number: u32,
    page: &mut Page,
) -> Result<(), Full>
    requires { number + length lines.now < 2 ^ 32 }
    ensures laid { LaidOn (call_lines (asked (D.DayCount.counted register.old.basis)) D.DayCount.per (view_of register.old) (numbered number (leading call_in lines.now))) page.old result page.new }
    ensures left { OnOk result (view_of register.new ≡ run (asked (D.DayCount.counted register.old.basis)) D.DayCount.per (view_of register.old) (leading call_in lines.now)) }
{
    for (i, line) in lines.iter().enumerate() {
        let Some(answer) = call_on(register, line) else {
            return Ok(());
        };
        page.lay(&answer_draft(answer, number + i as u32))?;
    }
    Ok(())
}

// The same, and then what the rows of the register hold.
pub(crate) fn lay_played<D: DayCount>(
    register: &mut Register<D>,
    lines: &[Line],
    number: u32,
    page: &mut Page,
) -> Result<(), Full>
    requires { number + length lines.now < 2 ^ 32 }
    ensures { LaidOn (played_lines (asked (D.DayCount.counted register.old.basis)) D.DayCount.per (view_of register.old) (numbered number (leading call_in lines.now))) page.old result page.new }
{
    lay_calls(register, lines, number, page)?;
    page.lay_rows(register.rows())
}
