// What stands behind each mark: its fields, and no word more. All fields are read before the first value is judged.
ghost use Rattle.std.specs.Prelude.{◌≡◌};
ghost use Rattle.text.specs.Bodies.{body};
ghost use Rattle.text.specs.Fields.{and_then, alone, settle_by};
ghost use Rattle.text.specs.Left.{left, ending};

use crate::at::At;
use crate::basis::Basis;
use crate::fault::Fault;
use crate::fields::Fields;
use crate::kind::{Date, Judged, Kind, Number, Offset, Pattern};
use crate::line::{Line, Terms};
use crate::mark::Mark;
use crate::settling::settle;
use calendar::Convention;
use schedules::Stub;

// What the only field of a line says.
fn lone_field<K: Kind>(fields: &mut Fields) -> Result<At<K::Said>, Fault>
    ensures { result ≡ alone K.says (ending fields.old) (left fields.old) }
{
    let field = fields.next_field::<K>()?;
    fields.end()?;
    Ok(field)
}

// The value of the only field of a line.
fn lone_value<K: Judged>(fields: &mut Fields) -> Result<At<K::Value>, Fault>
    ensures { result ≡ and_then (alone K.says (ending fields.old) (left fields.old)) (settle_by K.settles) }
{
    let field = lone_field::<K>(fields)?;
    settle::<K>(field)
}

fn read_deal(fields: &mut Fields) -> Result<Line, Fault>
    ensures { result ≡ body Mark.Deal fields.old }
{
    let start = fields.next_field::<Date>()?;
    let end = fields.next_field::<Date>()?;
    let months = fields.next_field::<Number>()?;
    let stub = fields.next_field::<Stub>()?;
    let convention = fields.next_field::<Convention>()?;
    let basis = fields.next_field::<Basis>()?;
    let rate = fields.next_field::<Number>()?;
    fields.end()?;
    let start = settle::<Date>(start)?;
    let end = settle::<Date>(end)?;
    Ok(Line::Deal(Terms {
        start,
        end,
        months,
        stub,
        convention,
        basis,
        rate,
    }))
}

fn read_transfer(fields: &mut Fields) -> Result<Line, Fault>
    ensures { result ≡ body Mark.Transfer fields.old }
{
    let from = fields.next_field::<Number>()?;
    let to = fields.next_field::<Number>()?;
    let amount = fields.next_field::<Number>()?;
    fields.end()?;
    Ok(Line::Transfer { from, to, amount })
}

fn read_redemption(fields: &mut Fields) -> Result<Line, Fault>
    ensures { result ≡ body Mark.Redemption fields.old }
{
    let holder = fields.next_field::<Number>()?;
    let amount = fields.next_field::<Number>()?;
    fields.end()?;
    Ok(Line::Redemption { holder, amount })
}

fn read_posting(fields: &mut Fields) -> Result<Line, Fault>
    ensures { result ≡ body Mark.Posting fields.old }
{
    fields.end()?;
    Ok(Line::Posting)
}

// Each mark has fields of its own and makes a line of its own, so this is a match over the marks.
pub(crate) fn read_body(mark: Mark, fields: &mut Fields) -> Result<Line, Fault>
    ensures { result ≡ body mark fields.old }
{
    match mark {
        Mark::Pattern => lone_value::<Pattern>(fields).map(Line::Pattern),
        Mark::ClosedDay => lone_value::<Date>(fields).map(Line::ClosedDay),
        Mark::Offset => lone_value::<Offset>(fields).map(Line::Offset),
        Mark::Deal => read_deal(fields),
        Mark::Holding => lone_field::<Number>(fields).map(Line::Holding),
        Mark::Advance => lone_value::<Date>(fields).map(Line::Advance),
        Mark::Transfer => read_transfer(fields),
        Mark::Redemption => read_redemption(fields),
        Mark::Posting => read_posting(fields),
        Mark::Payment => lone_field::<Number>(fields).map(Line::Payment),
    }
}
