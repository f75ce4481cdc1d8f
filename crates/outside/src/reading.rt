// The lines of the files: numbers in decimals, with one space between two.
// Functions and not FromStr: the forms are the files' own, and Date is of crate days.
ghost use Rattle.std.specs.Prelude.{◌≡◌, ℕ, List, IfSome, MatchOption};
ghost use Rattle.outside.specs.Exactly.{Exactly};
ghost use Rattle.outside.specs.Lines.{Spells, Leads, DateLine, DatedDayLine};

use crate::figures::DatedDay;
use days::Date;

// What `parse` answers, promised in the words of the lines.
fn whole_number(word: &str) -> Option<u32>
    ensures { Exactly result (λ n. Spells word.now n) }
{
    word.parse().ok()
}

// The number before the first space, and what stands behind that space.
fn leading_number(text: &str) -> Option<(u32, &str)>
    ensures only { IfSome result (λ x. Leads text.now x.0 x.1.now) }
    ensures found { (n : ℕ) (rest : List ℕ) → Leads text.now n rest → MatchOption result ⊥ (λ x. (n ≡ x.0) × (rest ≡ x.1.now)) }
{
    let (word, rest) = text.split_once(' ')?;
    let number = whole_number(word)?;
    Some((number, rest))
}

pub fn read_date(line: &str) -> Option<Date>
    ensures { Exactly result (λ date. DateLine line.now date) }
{
    let (year, rest) = leading_number(line)?;
    let (month, rest) = leading_number(rest)?;
    let day = whole_number(rest)?;
    Some(Date { year, month, day })
}

pub fn read_dated_day(line: &str) -> Option<DatedDay>
    ensures { Exactly result (λ figure. DatedDayLine line.now figure) }
{
    let (number, rest) = leading_number(line)?;
    let (year, rest) = leading_number(rest)?;
    let (month, rest) = leading_number(rest)?;
    let (day, rest) = leading_number(rest)?;
    let weekday = whole_number(rest)?;
    let date = Date { year, month, day };
    Some(DatedDay {
        number,
        date,
        weekday,
    })
}
