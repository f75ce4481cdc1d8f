// The closed days of a text, gathered from its lines.
ghost use Rattle.std.specs.Prelude.{◌≡◌, ◌<◌, ◌≤◌, true, length, take, Option, count_ones};
ghost use Rattle.std.specs.Fn.{FnReturnsAt};
ghost use Rattle.calendar.specs.Kinds.{all_within_sixty};
ghost use Rattle.text.specs.declared.line.Line.{Line};
ghost use Rattle.report.specs.Parts.{Part, part, gathered, mask_of, days_of, offsets_of};

use crate::closings::{Closings, MOST_DATES};
use calendar::{EasterRule, WeekdayPattern};
use text::Line;

const MOST_OFFSETS: usize = 8;

// The weekday pattern, or no closed weekday.
fn mask_of(lines: &[Line]) -> u8
    ensures { result ≡ mask_of lines.now }
{
    for line in lines {
        if let Line::Pattern(mask) = line {
            return mask.value;
        }
    }
    0
}

// Gathers what is found in the lines into a table, which has room for it, and answers how much there is. The count is kept by
// hand, as it is the next free place of a table that is lent.
fn gather<T: Copy, F: Fn(&Line) -> Option<T>>(lines: &[Line], find: F, table: &mut [T]) -> usize
    ghost found: { Part → Option T }
    requires callable { F.IsAlwaysCallable find }
    requires finds { (line : Line) (o : Option T) → FnReturnsAt F.Fn find line o → o ≡ found (part line) }
    requires room { length (gathered found lines.now) ≤ length table.old }
    requires short { length table.old ≤ 512 }
    ensures within { result ≤ length table.new }
    ensures found { take result table.new ≡ gathered found lines.now }
{
    let mut count = 0;
    for line in lines {
        if let Some(item) = find(line) {
            table[count] = item;
            count += 1;
        }
    }
    count
}

fn easter_rule(lines: &[Line]) -> EasterRule
    requires few { length (offsets_of lines.now) ≤ 8 }
    requires near { all_within_sixty (offsets_of lines.now) ≡ true }
    ensures { take result.count result.offsets ≡ offsets_of lines.now }
{
    let mut offsets = [0; MOST_OFFSETS];
    let find = |line: &Line| match line {
        Line::Offset(offset) => Some(offset.value),
        _ => None,
    };
    let count = gather(lines, find, &mut offsets);
    EasterRule::new(&offsets[..count]).unwrap()
}

fn weekday_pattern(lines: &[Line]) -> WeekdayPattern
    requires small { mask_of lines.now < 128 }
    requires opens { count_ones (mask_of lines.now) ≤ 6 }
    ensures { result.mask ≡ mask_of lines.now }
{
    WeekdayPattern::new(mask_of(lines)).unwrap()
}

impl Closings {
    // Of lines that have at most 512 closed dates, 8 offsets in range, and a pattern that leaves a weekday open.
    pub(crate) fn of(lines: &[Line]) -> Closings
        requires small { mask_of lines.now < 128 }
        requires opens { count_ones (mask_of lines.now) ≤ 6 }
        requires days { length (days_of lines.now) ≤ 512 }
        requires few { length (offsets_of lines.now) ≤ 8 }
        requires near { all_within_sixty (offsets_of lines.now) ≡ true }
        ensures mask { result.pattern.mask ≡ mask_of lines.now }
        ensures days { take result.count result.days ≡ days_of lines.now }
        ensures offsets { take result.easter.count result.easter.offsets ≡ offsets_of lines.now }
    {
        let mut days = [0; MOST_DATES];
        let find = |line: &Line| match line {
            Line::ClosedDay(day) => Some(day.value),
            _ => None,
        };
        let count = gather(lines, find, &mut days);
        Closings {
            easter: easter_rule(lines),
            pattern: weekday_pattern(lines),
            days,
            count,
        }
    }
}
