// The bond that is played: its days, its deal, its holders and the calls on it.
use calendar::Convention;
use days::Date;
use register::Call;
use schedules::{Deal, Stub};

// In 1/100,000 a year.
pub const RATE: u64 = 4_125;

pub const HOLDERS: usize = 2;

// In minor units of nominal.
const HOLDINGS: [u64; HOLDERS] = [1_000_000, 500_000];

pub const CALLS: usize = 7;

pub const DATES: usize = 3;

// The days of the half year on which something happens.
#[derive(Clone, Copy)]
pub struct Diary {
    start: u32,
    end: u32,
    sale: u32,
    coupon: u32,
    // a day after the end of the period that is then open
    late: u32,
}

impl Diary {
    // Absent only if one of these is no date.
    pub fn of_half_year() -> Option<Diary> {
        Some(Diary {
            start: Date::new(2023, 9, 30).number()?,
            end: Date::new(2024, 3, 31).number()?,
            sale: Date::new(2023, 11, 15).number()?,
            coupon: Date::new(2023, 12, 29).number()?,
            late: Date::new(2024, 4, 1).number()?,
        })
    }

    pub fn deal(&self) -> Deal {
        Deal {
            start: self.start,
            end: self.end,
            months: 3,
            stub: Stub::ShortFirst,
            convention: Convention::ModifiedFollowing,
        }
    }

    pub fn calls<'a>(&self, dates: &'a [u32]) -> [Call<'a>; CALLS] {
        [
            Call::Open {
                dates,
                rate: RATE,
                holdings: &HOLDINGS,
            },
            Call::Advance { day: self.sale },
            Call::Transfer {
                from: 0,
                to: 1,
                amount: 400_000,
            },
            Call::Advance { day: self.coupon },
            Call::Post,
            Call::Pay { holder: 1 },
            Call::Advance { day: self.late },
        ]
    }
}
