// A register's whole life, with every refusal that a call can meet.
use crate::*;
use counts::{actual_360, actual_365};
use days::Refusal;

// Over 360 and at this rate a day's interest on 1000 is one unit.
const RATE: u64 = 36_000;

const DATES: [u32; 3] = [10, 40, 70];

const HOLDINGS: [u64; 2] = [1000, 500];

fn opening<'a>(dates: &'a [u32], rate: u64, holdings: &'a [u64]) -> Call<'a> {
    Call::Open {
        dates,
        rate,
        holdings,
    }
}

fn transfer(from: u64, to: u64, amount: u64) -> Call<'static> {
    Call::Transfer { from, to, amount }
}

#[test]
fn opening_is_refused(rt: HostRuntime) {
    let calls = [
        Call::Pay { holder: 0 },
        opening(&[10], RATE, &HOLDINGS),
        opening(&[10, 811], RATE, &HOLDINGS),
        opening(&DATES, 50_001, &HOLDINGS),
        opening(&DATES, RATE, &[]),
        opening(&DATES, RATE, &[0]),
        opening(&DATES, RATE, &[10_000_000_000, 1]),
        opening(&DATES, RATE, &HOLDINGS),
        opening(&DATES, RATE, &HOLDINGS),
    ];
    let expected = [
        Err(Refusal::RegisterEmpty),
        Err(Refusal::BadDates),
        Err(Refusal::BadDates),
        Err(Refusal::RateTooHigh),
        Err(Refusal::BadHolderCount),
        Err(Refusal::BadNominal),
        Err(Refusal::BadNominal),
        Ok(1500),
        Err(Refusal::NotEmpty),
    ];
    let mut answers = [Ok(0); 9];
    let _register = play(actual_360(), &calls, &mut answers);
    for (answer, wanted) in answers.iter().zip(expected.iter()) {
        assert_eq!(rt; *answer, *wanted);
    }
}

#[test]
fn two_periods(rt: HostRuntime) {
    let calls = [
        opening(&DATES, RATE, &HOLDINGS),
        Call::Advance { day: 9 },
        Call::Advance { day: 41 },
        transfer(0, 2, 1),
        transfer(0, 0, 1),
        transfer(0, 1, 1001),
        Call::Advance { day: 40 },
        Call::Post,
        Call::Post,
        Call::Redeem {
            holder: 1,
            amount: 500,
        },
        Call::Advance { day: 70 },
        Call::Post,
        Call::Redeem {
            holder: 0,
            amount: 1,
        },
        Call::Pay { holder: 0 },
        Call::Pay { holder: 1 },
        Call::Pay { holder: 2 },
    ];
    let expected = [
        Ok(1500),
        Err(Refusal::DayOutOfPeriod),
        Err(Refusal::DayOutOfPeriod),
        Err(Refusal::UnknownHolder),
        Err(Refusal::SameHolder),
        Err(Refusal::BadAmount),
        Ok(30),
        Ok(45),
        Ok(0),
        Ok(500),
        Ok(30),
        Ok(30),
        Err(Refusal::RegisterClosed),
        Ok(60),
        Ok(15),
        Err(Refusal::UnknownHolder),
    ];
    let mut answers = [Ok(0); 16];
    let _register = play(actual_360(), &calls, &mut answers);
    for (answer, wanted) in answers.iter().zip(expected.iter()) {
        assert_eq!(rt; *answer, *wanted);
    }
}

#[test]
fn ticks_are_worth(rt: HostRuntime) {
    let row = Row {
        holding: 1000,
        paid: 60,
        due: 15,
        ticks: 7,
    };
    assert_eq!(rt; ticks_per_unit(&actual_360()), 36_000_000);
    assert_eq!(rt; row.worth(&actual_360()), 2_700_000_007);
    assert_eq!(rt; ticks_per_unit(&actual_365()), 36_500_000);
    assert_eq!(rt; row.worth(&actual_365()), 2_737_500_007);
}
