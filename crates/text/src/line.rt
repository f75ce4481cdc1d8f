// The lines of a text.
ghost use Rattle.std.specs.Prelude.{◌≡◌};
ghost use Rattle.text.specs.Lines.{mark_from};

use crate::at::At;
use crate::basis::Basis;
use crate::mark::Mark;
use calendar::Convention;
use schedules::Stub;

// What a deal says of itself. The rate is in 1/100,000 a year.
#[derive(Clone, Copy)]
pub struct Terms {
    pub start: At<u32>,
    pub end: At<u32>,
    pub months: At<u64>,
    pub stub: At<Stub>,
    pub convention: At<Convention>,
    pub basis: At<Basis>,
    pub rate: At<u64>,
}

#[derive(Clone, Copy)]
pub enum Line {
    // PO
    Posting,
    // CW: the closed weekdays as seven bits, Monday first
    Pattern(At<u8>),
    // CD: a closed day
    ClosedDay(At<u32>),
    // CE: an offset from Easter
    Offset(At<i32>),
    // DL
    Deal(Terms),
    // HO: the holding of the next holder
    Holding(At<u64>),
    // AD: a day
    Advance(At<u32>),
    // TR
    Transfer {
        from: At<u64>,
        to: At<u64>,
        amount: At<u64>,
    },
    // RD
    Redemption {
        holder: At<u64>,
        amount: At<u64>,
    },
    // PY: a holder
    Payment(At<u64>),
}

impl Line {
    // The mark that a line was read from. A match, since no derive gives the variant of one enum for that of another.
    pub(crate) fn mark(self) -> Mark
        ensures { result ≡ mark_from self }
    {
        match self {
            Line::Posting => Mark::Posting,
            Line::Pattern(_) => Mark::Pattern,
            Line::ClosedDay(_) => Mark::ClosedDay,
            Line::Offset(_) => Mark::Offset,
            Line::Deal(_) => Mark::Deal,
            Line::Holding(_) => Mark::Holding,
            Line::Advance(_) => Mark::Advance,
            Line::Transfer { .. } => Mark::Transfer,
            Line::Redemption { .. } => Mark::Redemption,
            Line::Payment(_) => Mark::Payment,
        }
    }
}
