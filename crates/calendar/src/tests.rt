// Examples of sets, refusals and rolling.
use crate::*;
use days::{Date, Layer, Refusal};
use std::test::Fail;

// 30 days in a row from day 100 on, out of order and with a repeat.
const THIRTY: [u32; 31] = [
    129, 101, 102, 103, 104, 105, 106, 107, 108, 109, 110, 111, 112, 113, 114, 115, 116, 117, 118,
    119, 120, 121, 122, 123, 124, 125, 126, 127, 128, 100, 100,
];

#[test]
fn reach_of_following(rt: HostRuntime) {
    let thirty = DatedList::new(&THIRTY);
    let one_more = Union {
        first: thirty,
        second: DatedList::new(&[130]),
    };
    assert_eq!(rt; Convention::Following.roll(&thirty, 100), Some(130));
    assert_eq!(rt; Convention::Following.roll(&one_more, 100), None);
    assert_eq!(rt; Convention::Preceding.roll(&one_more, 130), None);
    assert_eq!(rt; Convention::Preceding.roll(&one_more, 129), Some(99));
    assert_eq!(rt; Convention::Unadjusted.roll(&one_more, 100), Some(100));
    let refusal = Convention::Following.roll_date(&one_more, 100, 4);
    assert_eq!(rt; refusal, Err(Refusal::NoDayToRollTo(4)));
    assert_eq!(rt; Refusal::NoDayToRollTo(4).number(), 12);
    assert_eq!(rt; Refusal::NoDayToRollTo(4).layer(), Layer::Calendar);
    assert_eq!(rt; Refusal::NoDayToRollTo(4).place(), 4);
}

#[test]
fn refused_sets(rt: HostRuntime) {
    assert_eq!(rt;
        WeekdayPattern::new(0b111_1111).err(),
        Some(Refusal::ClosesWholeWeek)
    );
    assert_eq!(rt;
        WeekdayPattern::new(128).err(),
        Some(Refusal::ClosesWholeWeek)
    );
    assert_eq!(rt; WeekdayPattern::new(0b111_1110).err(), None);
    assert_eq!(rt; EasterRule::new(&[-60, 60]).err(), None);
    assert_eq!(rt;
        EasterRule::new(&[61]).err(),
        Some(Refusal::OffsetOutOfRange)
    );
    assert_eq!(rt;
        EasterRule::new(&[0, 1, 2, 3, 4, 5, 6, 7, 8]).err(),
        Some(Refusal::TooMany)
    );
    assert_eq!(rt;
        EasterRule::new(&[0, 1, 2, 3, 4, 5, 6, 7, -61]).err(),
        Some(Refusal::OffsetOutOfRange)
    );
}

#[test]
fn good_friday(rt: HostRuntime) -> Result<(), Fail> {
    let set = weekends_and_easter();
    let friday = Date::new(2024, 3, 29).number().ok_or("no date")?;
    assert_eq!(rt;
        Convention::Following.roll(&set, friday),
        Date::new(2024, 4, 2).number()
    );
    assert_eq!(rt;
        Convention::ModifiedFollowing.roll(&set, friday),
        Date::new(2024, 3, 28).number()
    );
    assert_eq!(rt;
        Convention::Preceding.roll(&set, friday),
        Date::new(2024, 3, 28).number()
    );
    assert!(rt; set.is_closed(109_573));
    assert_eq!(rt; Convention::Following.roll(&set, 109_573), None);
    assert_eq!(rt;
        Convention::try_from('M'),
        Ok(Convention::ModifiedFollowing)
    );
    assert_eq!(rt;
        Convention::try_from('m'),
        Err(UnknownLetter { letter: 'm' })
    );
    Ok(())
}
