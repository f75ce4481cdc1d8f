// The year that the program is asked for.
ghost use Rattle.std.specs.Prelude.{◌-◌, IsTrue, SomeIff};
ghost use Rattle.almanac.specs.Year.{digit, four_digits, year_value, YearRead};

use days::{FIRST_YEAR, LAST_YEAR};

#[derive(Clone, Copy, PartialEq, Eq, Debug)]
pub enum BadYear {
    NotFourDigits,
    OutOfRange(u32),
}

// What a digit says; none for any other byte.
fn digit_of(byte: u8) -> Option<u32>
    ensures { SomeIff result (IsTrue (digit byte)) (byte - 48) }
{
    char::from(byte).to_digit(10)
}

fn four_digit_number(word: &[u8]) -> Option<u32>
    ensures { SomeIff result (IsTrue (four_digits word.now)) (year_value word.now) }
{
    let &[a, b, c, d] = word else {
        return None;
    };
    let number = 1000 * digit_of(a)? + 100 * digit_of(b)? + 10 * digit_of(c)? + digit_of(d)?;
    Some(number)
}

// A year from 1900 to 2199, written with four digits.
// A function and no TryFrom: a year is a plain number to all that take it, so a type for it would be taken apart at once.
pub fn year_from(word: &[u8]) -> Result<u32, BadYear>
    ensures { YearRead word.now result }
{
    let year = four_digit_number(word).ok_or(BadYear::NotFourDigits)?;
    if (FIRST_YEAR..=LAST_YEAR).contains(&year) {
        Ok(year)
    } else {
        Err(BadYear::OutOfRange(year))
    }
}
