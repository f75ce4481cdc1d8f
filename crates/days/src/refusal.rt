// Why a call was refused. Each refusal has a number, the layer that gave it, and a place: an index, or 0.
ghost use Rattle.std.specs.Prelude.{◌≡◌};
ghost use Rattle.days.specs.Refusals.{told};

#[derive(Clone, Copy, PartialEq, Eq, Debug)]
pub enum Layer {
    Text,
    Calendar,
    Deal,
    Register,
}

#[derive(Clone, Copy, PartialEq, Eq, Debug)]
pub enum Refusal {
    // a text of more than 65,536 bytes
    TextTooLong,
    // a last line that no byte 10 ends
    LineNotEnded,
    // a line whose mark is unknown, or not allowed where it stands
    BadMark,
    // a field that is badly written, left over or missing
    BadField,
    // a date that is no day of the range
    NoSuchDay,
    // a weekday pattern that is no pattern of seven bits, or that leaves no day open
    ClosesWholeWeek,
    // an offset from Easter below -60 or above +60
    OffsetOutOfRange,
    // more entries than there is room for
    TooMany,
    // the start is not before the end, or the end is too far from it or above the range
    BadTerm,
    // a number of months that no schedule goes by
    BadMonths,
    // the table is shorter than the dates
    TableTooShort,
    // the date with this index has no open day to roll to
    NoDayToRollTo(u32),
    // the date with this index rolls to the day of the one before it
    NeighboursOnOneDay(u32),
    // the register is not empty
    NotEmpty,
    // dates that no register takes: fewer than 2 or more than 481, not rising, above the range, or too far apart
    BadDates,
    // a rate above 50,000
    RateTooHigh,
    // no holders, or more than 16
    BadHolderCount,
    // holdings that add to 0, or to more than 10,000,000,000
    BadNominal,
    // the register is empty
    RegisterEmpty,
    // the register is closed
    RegisterClosed,
    // a day before today, or after the end of the current period
    DayOutOfPeriod,
    // a holder's number that is not in use
    UnknownHolder,
    // a transfer from a holder to the same holder
    SameHolder,
    // an amount of 0, or above the giver's holding
    BadAmount,
    // a text has no deal with this number
    NoSuchDeal,
    // a line of a report does not fit its buffer
    BufferFull,
}

impl Refusal {
    pub fn number(self) -> u32
        ensures { result ≡ (told self).number }
    {
        match self {
            Refusal::TextTooLong => 1,
            Refusal::LineNotEnded => 2,
            Refusal::BadMark => 3,
            Refusal::BadField => 4,
            Refusal::NoSuchDay => 5,
            Refusal::ClosesWholeWeek => 6,
            Refusal::OffsetOutOfRange => 7,
            Refusal::TooMany => 8,
            Refusal::BadTerm => 9,
            Refusal::BadMonths => 10,
            Refusal::TableTooShort => 11,
            Refusal::NoDayToRollTo(_) => 12,
            Refusal::NeighboursOnOneDay(_) => 13,
            Refusal::NotEmpty => 14,
            Refusal::BadDates => 15,
            Refusal::RateTooHigh => 16,
            Refusal::BadHolderCount => 17,
            Refusal::BadNominal => 18,
            Refusal::RegisterEmpty => 19,
            Refusal::RegisterClosed => 20,
            Refusal::DayOutOfPeriod => 21,
            Refusal::UnknownHolder => 22,
            Refusal::SameHolder => 23,
            Refusal::BadAmount => 24,
            Refusal::NoSuchDeal => 25,
            Refusal::BufferFull => 26,
        }
    }

    pub fn layer(self) -> Layer
        ensures { result ≡ (told self).layer }
    {
        match self {
            Refusal::TextTooLong
            | Refusal::LineNotEnded
            | Refusal::BadMark
            | Refusal::BadField
            | Refusal::NoSuchDay
            | Refusal::ClosesWholeWeek
            | Refusal::OffsetOutOfRange
            | Refusal::TooMany
            | Refusal::NoSuchDeal
            | Refusal::BufferFull => Layer::Text,
            Refusal::NoDayToRollTo(_) => Layer::Calendar,
            Refusal::BadTerm
            | Refusal::BadMonths
            | Refusal::TableTooShort
            | Refusal::NeighboursOnOneDay(_) => Layer::Deal,
            _ => Layer::Register,
        }
    }

    pub fn place(self) -> u32
        ensures { result ≡ (told self).place }
    {
        match self {
            Refusal::NoDayToRollTo(index) | Refusal::NeighboursOnOneDay(index) => index,
            _ => 0,
        }
    }
}
