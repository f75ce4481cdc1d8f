// Where in a text a line stands, by the lines before it.
ghost use Rattle.std.specs.Prelude.{◌≡◌};
ghost use Rattle.text.specs.Counts.{Upto};
ghost use Rattle.text.specs.Marks.{allowed, full, next};

use crate::mark::Mark;

const MOST_CLOSED_DAYS: u32 = 512;

const MOST_OFFSETS: u32 = 8;

const MOST_HOLDINGS: u32 = 16;

// The lines of the calendar so far.
#[derive(Clone, Copy)]
pub(crate) struct CalendarLines {
    pub(crate) has_pattern: bool,
    pub(crate) dates: u32,
    pub(crate) offsets: u32,
}

#[derive(Clone, Copy)]
pub(crate) enum Standing {
    // after a call on a deal
    InCalls,
    // before the first deal
    InCalendar(CalendarLines),
    // after a deal and so many of its holdings
    InHoldings { count: u32 },
}

// Each rule below is a match over where a line stands and its mark, as the format states it.
// What it asks of the calendar's lines is named alone, since a struct that is named whole is copied for each line.
impl Standing {
    // Where the first line of a text stands.
    pub(crate) const START: Standing = Standing::InCalendar(CalendarLines {
        has_pattern: false,
        dates: 0,
        offsets: 0,
    });

    // Whether a line with this mark may stand here.
    pub(crate) fn allows(self, mark: Mark) -> bool
        ensures { result ≡ allowed self mark }
    {
        match (self, mark) {
            (Standing::InCalendar(CalendarLines { has_pattern, .. }), Mark::Pattern) =>
                !has_pattern,
            (Standing::InCalendar(_), Mark::ClosedDay | Mark::Offset | Mark::Deal) => true,
            (Standing::InCalendar(_), _) => false,
            (_, Mark::Pattern | Mark::ClosedDay | Mark::Offset) => false,
            (Standing::InCalls, Mark::Holding) => false,
            (_, _) => true,
        }
    }

    // Whether as many lines of this sort stand before as there may be.
    pub(crate) fn is_full(self, mark: Mark) -> bool
        ensures { result ≡ full self mark }
    {
        match (self, mark) {
            (Standing::InCalendar(CalendarLines { dates, .. }), Mark::ClosedDay) => dates
                >= MOST_CLOSED_DAYS,
            (Standing::InCalendar(CalendarLines { offsets, .. }), Mark::Offset) => offsets
                >= MOST_OFFSETS,
            (Standing::InHoldings { count }, Mark::Holding) => count >= MOST_HOLDINGS,
            (_, _) => false,
        }
    }

    // Where the next line stands, behind one with this mark.
    pub(crate) fn next(self, mark: Mark) -> Standing
        requires { Upto 65536 self }
        ensures { result ≡ next self mark }
    {
        match (self, mark) {
            (Standing::InCalendar(CalendarLines { dates, offsets, .. }), Mark::Pattern) =>
                Standing::InCalendar(CalendarLines {
                    has_pattern: true,
                    dates,
                    offsets,
                }),
            (
                Standing::InCalendar(
                    CalendarLines {
                        has_pattern,
                        dates,
                        offsets,
                    },
                ),
                Mark::ClosedDay,
            ) => Standing::InCalendar(CalendarLines {
                has_pattern,
                dates: dates + 1,
                offsets,
            }),
            (
                Standing::InCalendar(
                    CalendarLines {
                        has_pattern,
                        dates,
                        offsets,
                    },
                ),
                Mark::Offset,
            ) => Standing::InCalendar(CalendarLines {
                has_pattern,
                dates,
                offsets: offsets + 1,
            }),
            (_, Mark::Deal) => Standing::InHoldings { count: 0 },
            (Standing::InHoldings { count }, Mark::Holding) => Standing::InHoldings {
                count: count + 1,
            },
            (_, _) => Standing::InCalls,
        }
    }
}
