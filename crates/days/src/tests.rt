// Examples on the edges of the calendar.
use crate::*;
use std::test::Fail;

#[test]
fn days_and_dates(rt: HostRuntime) {
    assert_eq!(rt; date_of(0), Some((1900, 1, 1)));
    assert_eq!(rt; Date::of(0), Some(Date::new(1900, 1, 1)));
    assert_eq!(rt; date_of(36_524), Some((2000, 1, 1)));
    assert_eq!(rt; date_of(109_572), Some((2199, 12, 31)));
    assert_eq!(rt; date_of(109_573), None);
    assert_eq!(rt; Date::new(2000, 2, 29).number(), Some(36_583));
    assert_eq!(rt;
        Date::new(1900, 2, 29).number(),
        None,
        "1900 is no leap year"
    );
    assert_eq!(rt;
        Date::new(2100, 2, 29).number(),
        None,
        "2100 is no leap year"
    );
    assert_eq!(rt; Date::new(2024, 0, 1).number(), None);
    assert_eq!(rt; Date::new(2200, 1, 1).number(), None);
    assert_eq!(rt; Weekday::of(36_524), Weekday::Saturday);
}

#[test]
fn months_and_easters(rt: HostRuntime) {
    assert_eq!(rt; days_in_month(2024, 2), Some(29));
    assert_eq!(rt; days_in_month(2024, 13), None);
    assert_eq!(rt; month_end(0), Some(30));
    assert_eq!(rt; month_end(109_573), None);
    assert_eq!(rt; easter(1981), Date::new(1981, 4, 19).number());
    assert_eq!(rt; easter(2024), Date::new(2024, 3, 31).number());
    assert_eq!(rt; easter(1899), None);
    assert_eq!(rt; easter(2200), None);
}

#[test]
fn texts(rt: HostRuntime) -> Result<(), Fail> {
    let heap = rt.alloc();
    let first = format!(in heap; "{}", Date::new(1900, 1, 1))?;
    assert_eq!(rt; first.as_str(), "1900-01-01");
    let past_the_end = format!(in heap; "{}", DateOrNone(Date::of(109_573)))?;
    assert_eq!(rt; past_the_end.as_str(), "none");
    let weekday = format!(in heap; "{:<9}|", Weekday::of(36_524))?;
    assert_eq!(rt; weekday.as_str(), "Saturday |");
    let refusal = format!(in heap; "{}", Refusal::NoDayToRollTo(4))?;
    assert_eq!(rt; refusal.as_str(), "12, layer C, place 4");
    assert_eq!(rt; u32::from(Weekday::Sunday), 6);
    Ok(())
}
