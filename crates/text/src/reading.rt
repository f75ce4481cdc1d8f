// A whole text into the caller's table of lines.
ghost use Rattle.std.specs.Prelude.{◌≡◌, ◌≤◌, length};
ghost use Rattle.text.specs.Laws.{TextLaw};
ghost use Rattle.text.specs.Meaning.{meaning};
ghost use Rattle.text.specs.Reading.{line_count, Fills, Reads};

use crate::fault::Fault;
use crate::finding::split_once;
use crate::line::Line;
use crate::one_line::read_line;
use crate::place::Place;
use crate::standing::Standing;
use crate::unread::Unread;
use days::Refusal;

const LONGEST_TEXT: usize = 65_536;

const LINE_END: u8 = b'\n';

// What is said of a whole text has no place in it.
const NOWHERE: Place = Place { line: 0, column: 0 };

// How many lines a text has, which is the room that reading it asks for. What is left behind the last byte 10 is none.
pub fn count_lines(text: &[u8]) -> usize
    ensures { result ≡ line_count text.now }
{
    // A loop, which is run for several bytes at once; a filter's count is not.
    let mut count = 0;
    for byte in text {
        if *byte == LINE_END {
            count += 1;
        }
    }
    count
}

// Reads line after line, up to the first fault. The text and the table are the caller's, lent as the public call takes them.
fn fill(text: &[u8], lines: &mut [Line]) -> Result<usize, Fault>
    requires short { length text.now ≤ 65536 }
    requires room { line_count text.now ≤ length lines.old }
    ensures { Fills text.now lines.old result lines.new }
{
    let mut standing = Standing::START;
    // Counted by hand: it is the place in the table, the number of the line and, in the end, the answer.
    let mut count = 0;
    let mut rest = text;
    while let Some((bytes, later)) = split_once(rest, LINE_END) {
        let line = read_line(standing, count as u32 + 1, bytes)?;
        lines[count] = line;
        standing = standing.next(line.mark());
        count += 1;
        rest = later;
    }
    if !rest.is_empty() {
        return Err(Place::of_line(count as u32 + 1).refuses(Refusal::LineNotEnded));
    }
    Ok(count)
}

// Judges the length of the text and the room in the table, and then reads. A function of its own, so that `read` owes
// the law of texts at one return.
fn read_within(text: &[u8], lines: &mut [Line]) -> Result<usize, Unread>
    ensures { Reads text.now lines.old result lines.new }
{
    if text.len() > LONGEST_TEXT {
        return Err(NOWHERE.refuses(Refusal::TextTooLong).into());
    }
    if lines.len() < count_lines(text) {
        return Err(Unread::NoRoom);
    }
    Ok(fill(text, lines)?)
}

// Reads a text into the table, and answers how many lines it has. Entries beyond them stay.
// Refused are, the first of these: a text that is too long, a table with too few places, and the first fault, which
// leaves the lines before it in the table. The others leave it as it was.
pub fn read(text: &[u8], lines: &mut [Line]) -> Result<usize, Unread>
    ensures value { Reads text.now lines.old result lines.new }
    ensures law { TextLaw text.now (meaning text.now) }
{
    read_within(text, lines)
}
