// Schedules, and each refusal.
use super::schedule;
use crate::deal::{Deal, Stub};
use calendar::{Convention, DatedList, weekends_and_easter};
use days::{Date, Refusal};

// 1 June to 3 September 2024, by three months.
fn summer(convention: Convention) -> Deal {
    Deal {
        start: 45_442,
        end: 45_536,
        months: 3,
        stub: Stub::ShortFirst,
        convention,
    }
}

// The first three days of June, and 31 days from 3 September on: the first two dates meet on 4 June, and the last has
// no day to follow.
const CLOSED: [u32; 34] = [
    45_442, 45_443, 45_444, 45_536, 45_537, 45_538, 45_539, 45_540, 45_541, 45_542, 45_543, 45_544,
    45_545, 45_546, 45_547, 45_548, 45_549, 45_550, 45_551, 45_552, 45_553, 45_554, 45_555, 45_556,
    45_557, 45_558, 45_559, 45_560, 45_561, 45_562, 45_563, 45_564, 45_565, 45_566,
];

#[test]
fn neighbours_on_one_day(rt: HostRuntime) {
    let weekends = weekends_and_easter();
    let mut table = [7; 4];
    assert_eq!(rt; Date::new(2024, 6, 1).number(), Some(45_442));
    assert_eq!(rt; Date::new(2024, 9, 3).number(), Some(45_536));
    assert_eq!(rt;
        schedule(&summer(Convention::Following), &weekends, &mut table),
        Err(Refusal::NeighboursOnOneDay(1))
    );
    assert_eq!(rt; table[0], 7);
    assert_eq!(rt;
        schedule(&summer(Convention::Preceding), &weekends, &mut table),
        Ok(3)
    );
    assert_eq!(rt; table[0], 45_441);
    assert_eq!(rt; table[1], 45_444);
    assert_eq!(rt; table[2], 45_536);
    assert_eq!(rt; table[3], 7);
}

#[test]
fn smaller_number_first(rt: HostRuntime) {
    let list = DatedList::new(&CLOSED);
    let mut table = [7; 3];
    let deal = summer(Convention::Following);
    assert_eq!(rt;
        schedule(&deal, &list, &mut table),
        Err(Refusal::NoDayToRollTo(2))
    );
    let mut short = [7; 2];
    assert_eq!(rt;
        schedule(&deal, &list, &mut short),
        Err(Refusal::TableTooShort)
    );
    let uneven = Deal { months: 5, ..deal };
    assert_eq!(rt;
        schedule(&uneven, &list, &mut short),
        Err(Refusal::BadMonths)
    );
    let empty = Deal {
        end: deal.start,
        ..uneven
    };
    assert_eq!(rt; schedule(&empty, &list, &mut short), Err(Refusal::BadTerm));
}

#[test]
fn forty_years_of_months(rt: HostRuntime) {
    let none = DatedList::new(&[]);
    let mut table = [0; 482];
    let deal = Deal {
        start: 36_524,
        end: 51_124,
        months: 1,
        stub: Stub::ShortLast,
        convention: Convention::Unadjusted,
    };
    assert_eq!(rt; schedule(&deal, &none, &mut table), Ok(481));
    assert_eq!(rt; table[480], 51_124);
    assert_eq!(rt; table[481], 0);
    let longer = Deal {
        end: 51_125,
        ..deal
    };
    assert_eq!(rt; schedule(&longer, &none, &mut table), Err(Refusal::BadTerm));
}
