// The lines of a report, each as a draft. They are put together by a draft's own methods: `write!` answers a Result, whose
// clauses say nothing of an Err, and a draft never fails.
ghost use Rattle.std.specs.Prelude.{◌≡◌, ◌≤◌, ◌∷◌, ◌++◌, length, take};
ghost use Rattle.days.specs.Refusals.{told};
ghost use Rattle.report.specs.Printed.{field, sc_line, ok_line, no_line, answer_line, st_line, ft_line};
ghost use Rattle.report.specs.Reports.{seen};

use days::Refusal;
use register::Row;
use text::Fault;
use writing::Draft;

// A space and a number, which has at most twenty digits.
fn put_field(line: &mut Draft, n: u64)
    ensures text { line.new ≡ take 128 (line.old ++ field n) }
    ensures short { length (field n) ≤ 21 }
{
    line.push(b' ');
    line.number(n);
}

// SC index date
pub(crate) fn date_draft(index: u64, day: u32) -> Draft
    requires { day ≤ 109572 }
    ensures { result ≡ sc_line index day }
{
    let mut line = Draft::new();
    line.word(b"SC");
    put_field(&mut line, index);
    line.push(b' ');
    line.date(day);
    line.push(b'\n');
    line
}

// OK answer
pub(crate) fn accepted_draft(answer: u64) -> Draft
    ensures { result ≡ ok_line answer }
{
    let mut line = Draft::new();
    line.word(b"OK");
    put_field(&mut line, answer);
    line.push(b'\n');
    line
}

// NO number layer place line
pub(crate) fn refused_draft(refusal: Refusal, number: u32) -> Draft
    ensures { result ≡ no_line (told refusal) number }
{
    let mut line = Draft::new();
    line.word(b"NO");
    put_field(&mut line, refusal.number() as u64);
    line.push(b' ');
    line.push(refusal.layer().letter() as u8);
    put_field(&mut line, refusal.place() as u64);
    put_field(&mut line, number as u64);
    line.push(b'\n');
    line
}

// ST holder holding paid due ticks
pub(crate) fn row_draft(holder: u64, row: &Row) -> Draft
    ensures { result ≡ st_line holder row.now }
{
    let mut line = Draft::new();
    line.word(b"ST");
    put_field(&mut line, holder);
    put_field(&mut line, row.holding);
    put_field(&mut line, row.paid);
    put_field(&mut line, row.due);
    put_field(&mut line, row.ticks);
    line.push(b'\n');
    line
}

// FT number line column
pub(crate) fn fault_draft(fault: &Fault) -> Draft
    ensures { result ≡ ft_line fault.now }
{
    let mut line = Draft::new();
    line.word(b"FT");
    put_field(&mut line, fault.refusal.number() as u64);
    put_field(&mut line, fault.line as u64);
    put_field(&mut line, fault.column as u64);
    line.push(b'\n');
    line
}

// The answer to a call on the line with this number.
pub(crate) fn answer_draft(answer: Result<u64, Refusal>, number: u32) -> Draft
    ensures { result ≡ answer_line (seen answer) number }
{
    match answer {
        Ok(n) => accepted_draft(n),
        Err(refusal) => refused_draft(refusal, number),
    }
}
