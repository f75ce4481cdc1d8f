// One line: its mark says what fields it has, and where it stands whether it may be there.
ghost use Rattle.std.specs.Prelude.{◌≡◌, ◌≤◌, length};
ghost use Rattle.text.specs.Bodies.{MarkTaken};
ghost use Rattle.text.specs.Left.{left, ending};
ghost use Rattle.text.specs.Lines.{body_of, line_of};

use crate::body::read_body;
use crate::fault::Fault;
use crate::fields::Fields;
use crate::line::Line;
use crate::mark::Mark;
use crate::place::Place;
use crate::standing::Standing;
use days::Refusal;

fn read_mark(fields: &mut Fields) -> Option<Mark>
    ensures taken { MarkTaken (left fields.old) result (left fields.new) }
    ensures same_line { ending fields.new ≡ ending fields.old }
{
    let word = fields.next_word().ok()?;
    Mark::of_word(word.value)
}

// What stands behind the mark is judged before the room for one more such line.
fn read_marked(standing: Standing, mark: Mark, fields: &mut Fields) -> Result<Line, Fault>
    ensures { result ≡ body_of standing mark (ending fields.old) (left fields.old) }
{
    let start = Place::of_line(fields.place.line);
    let line = read_body(mark, fields)?;
    if standing.is_full(mark) {
        return Err(start.refuses(Refusal::TooMany));
    }
    Ok(line)
}

// A line by its number and its bytes, without the byte 10 that ends it.
pub(crate) fn read_line(standing: Standing, number: u32, bytes: &[u8]) -> Result<Line, Fault>
    requires { length bytes.now ≤ 65536 }
    ensures { result ≡ line_of standing number bytes.now }
{
    let mut fields = Fields::of_line(bytes, number);
    let bad_mark = Place::of_line(number).refuses(Refusal::BadMark);
    let Some(mark) = read_mark(&mut fields) else {
        return Err(bad_mark);
    };
    if !standing.allows(mark) {
        return Err(bad_mark);
    }
    read_marked(standing, mark, &mut fields)
}
