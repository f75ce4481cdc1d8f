// Easter Sunday of each year, from one table that is proved against the computus.
ghost use Rattle.std.specs.Prelude.{◌≡◌, ◌+◌, ◌<◌, ◌≤◌};
ghost use Rattle.days.specs.Calendar.{number_of};
ghost use Rattle.days.specs.Easter.{easter_of, easter_number};
ghost use Rattle.days.specs.Laws.{EasterIsSunday};

use crate::dates::{Date, FIRST_YEAR};

// The days from 21 March to Easter, of 1900 and of each year after it.
const DAYS_AFTER_MARCH_21: [u8; 300] = [
    25, 17, 9, 22, 13, 33, 25, 10, 29, 21, 6, 26, 17, 2, 22, 14, 33, 18, 10, 30, 14, 6, 26, 11, 30,
    22, 14, 27, 18, 10, 30, 15, 6, 26, 11, 31, 22, 7, 27, 19, 3, 23, 15, 35, 19, 11, 31, 16, 7, 27,
    19, 4, 23, 15, 28, 20, 11, 31, 16, 8, 27, 12, 32, 24, 8, 28, 20, 5, 24, 16, 8, 21, 12, 32, 24,
    9, 28, 20, 5, 25, 16, 29, 21, 13, 32, 17, 9, 29, 13, 5, 25, 10, 29, 21, 13, 26, 17, 9, 22, 14,
    33, 25, 10, 30, 21, 6, 26, 18, 2, 22, 14, 34, 18, 10, 30, 15, 6, 26, 11, 31, 22, 14, 27, 19,
    10, 30, 15, 7, 26, 11, 31, 23, 7, 27, 19, 4, 23, 15, 35, 20, 11, 31, 16, 8, 27, 19, 4, 24, 15,
    28, 20, 12, 31, 16, 8, 28, 12, 32, 24, 9, 28, 20, 5, 25, 16, 8, 21, 13, 32, 24, 9, 29, 20, 5,
    25, 17, 29, 21, 13, 33, 17, 9, 29, 14, 5, 25, 10, 30, 21, 13, 26, 18, 9, 22, 14, 34, 25, 10,
    30, 22, 7, 27, 19, 4, 23, 15, 28, 20, 11, 31, 16, 8, 27, 12, 32, 24, 8, 28, 20, 5, 24, 16, 8,
    21, 12, 32, 24, 9, 28, 20, 5, 25, 16, 29, 21, 13, 32, 17, 9, 29, 13, 5, 25, 10, 29, 21, 13, 26,
    17, 9, 22, 14, 33, 25, 10, 30, 21, 6, 26, 18, 2, 22, 14, 34, 18, 10, 30, 15, 6, 26, 11, 31, 22,
    14, 27, 19, 10, 30, 15, 7, 26, 11, 31, 23, 7, 27, 19, 4, 23, 15, 35, 20, 11, 31, 16, 8, 27, 19,
    4, 24,
];

fn days_after_march_21(index: u32) -> u32
    requires { index < 300 }
    ensures few { result ≤ 35 }
    ensures value { number_of (1900 + index) 3 21 + result ≡ easter_of (1900 + index) }
{
    DAYS_AFTER_MARCH_21[index as usize] as u32
}

// The day number of a year's Easter Sunday; absent outside 1900 to 2199.
pub fn easter(year: u32) -> Option<u32>
    ensures value { result ≡ easter_number year }
    ensures sunday { EasterIsSunday }
{
    let march_21 = Date::new(year, 3, 21).number()?;
    Some(march_21 + days_after_march_21(year - FIRST_YEAR))
}
