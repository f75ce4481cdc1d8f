// What a word says in the place of each kind of field. A word that is badly written says nothing.
ghost use Rattle.std.specs.Prelude.{◌≡◌, ◌^◌, ◌<◌, ◌≤◌, length, IfSome};
ghost use Rattle.text.specs.Kinds.{said, date, number, pattern, offset, stub, convention, basis, number_said};
ghost use Rattle.text.specs.Words.{digits_from, signed_said};

use crate::basis::Basis;
use crate::kind::{Date, Kind, Number, Offset, Pattern};
use calendar::Convention;
use schedules::Stub;

const MOST_DIGITS: usize = 11;

// The number that digits of a radix write; absent where a byte is none. A loop and no `try_fold`, whose closure would
// know no bound of the number so far.
// Inlined, so that the radix is a constant in it.
#[inline(always)]
fn digits_value(radix: u32, digits: &[u8]) -> Option<u64>
    requires two { 2 ≤ radix }
    requires ten { radix ≤ 10 }
    requires few { length digits.now ≤ 11 }
    ensures value { result ≡ digits_from radix 0 digits.now }
    ensures small { IfSome result (λ n. n < radix ^ length digits.now) }
{
    let mut value = 0;
    for byte in digits {
        let digit = char::from(*byte).to_digit(radix)?;
        value = u64::from(radix) * value + u64::from(digit);
    }
    Some(value)
}

impl Kind for Number {
    type Said = u64;

    ghost says = { said number };

    fn said(word: &[u8]) -> Option<u64>
        ensures value { result ≡ number_said word.now }
        ensures small { IfSome result (λ n. n < 10 ^ 11) }
    {
        match word {
            [] | [b'0', _, ..] => None,
            _ if word.len() > MOST_DIGITS => None,
            _ => digits_value(10, word),
        }
    }
}

impl Kind for Date {
    // the number of its day where it is a day of the range
    type Said = Option<u32>;

    ghost says = { said date };

    fn said(word: &[u8]) -> Option<Option<u32>> {
        if word.len() != 10 {
            return None;
        }
        if word[4] != b'-' || word[7] != b'-' {
            return None;
        }
        let year = digits_value(10, &word[0..4])?;
        let month = digits_value(10, &word[5..7])?;
        let day = digits_value(10, &word[8..10])?;
        let date = days::Date {
            year: year as u32,
            month: month as u32,
            day: day as u32,
        };
        Some(date.number())
    }
}

impl Kind for Pattern {
    type Said = u8;

    ghost says = { said pattern };

    // The first bit is the highest.
    fn said(word: &[u8]) -> Option<u8> {
        if word.len() != 7 {
            return None;
        }
        let mask = digits_value(2, word)?;
        Some(mask as u8)
    }
}

// A distance with its sign; a zero has no minus.
fn signed(sign: u8, distance: Option<u64>) -> Option<i64>
    requires { IfSome distance (λ n. n < 10 ^ 11) }
    ensures { result ≡ signed_said sign distance }
{
    let distance = distance? as i64;
    match sign {
        b'+' => Some(distance),
        b'-' if distance > 0 => Some(-distance),
        _ => None,
    }
}

impl Kind for Offset {
    type Said = i64;

    ghost says = { said offset };

    fn said(word: &[u8]) -> Option<i64> {
        let (sign, digits) = word.split_first()?;
        signed(*sign, Number::said(digits))
    }
}

impl Kind for Stub {
    type Said = Stub;

    ghost says = { said stub };

    fn said(word: &[u8]) -> Option<Stub> {
        match word {
            b"SF" => Some(Stub::ShortFirst),
            b"SL" => Some(Stub::ShortLast),
            _ => None,
        }
    }
}

impl Kind for Convention {
    type Said = Convention;

    ghost says = { said convention };

    fn said(word: &[u8]) -> Option<Convention> {
        match word {
            [letter] => Convention::try_from(char::from(*letter)).ok(),
            _ => None,
        }
    }
}

impl Kind for Basis {
    type Said = Basis;

    ghost says = { said basis };

    #[tactic(auto, using(crate::proofs::BasisNames::no_name))]
    fn said(word: &[u8]) -> Option<Basis> {
        match word {
            b"A360" => Some(Basis::Actual360),
            b"A365" => Some(Basis::Actual365),
            b"B360" => Some(Basis::BondBasis),
            b"E360" => Some(Basis::European),
            _ => None,
        }
    }
}
