// 30/360 day counts: years of twelve months of thirty days.
ghost use Rattle.std.specs.Prelude.{◌≡◌, ◌≤◌};
ghost use Rattle.counts.specs.Bases.{place, cut, bond_day, first_place, bond, european};
ghost use Rattle.days.specs.Calendar.{year_of, month_of, day_of, date};
ghost use Rattle.counts.specs.Counting.{asked};
ghost use Rattle.counts.specs.Formulas.{BondByFormula, EuropeanByFormula};
ghost use Rattle.counts.specs.Places.{bond_lawful, european_lawful};

use crate::count::DayCount;
use crate::ranged::ranged;
use days::Date;

// 30/360, bond basis: a second 31st is a 30th only after a first day above 29.
#[derive(Clone, Copy)]
pub struct BondBasis;

// 30E/360, the European basis: a 31st is a 30th on either side.
#[derive(Clone, Copy)]
pub struct European;

// Twelve months of thirty days.
const DAYS_A_YEAR: u32 = 360;

fn cut_to_thirty(day: u32) -> u32
    ensures { result ≡ cut day }
{
    if day == 31 { 30 } else { day }
}

fn bond_second_day(first: u32, second: u32) -> u32
    ensures { result ≡ bond_day first second }
{
    if cut_to_thirty(first) > 29 {
        cut_to_thirty(second)
    } else {
        second
    }
}

fn place_of(date: Date) -> u32
    requires { (date.year ≤ 2199) × (date.month ≤ 12) × (date.day ≤ 31) }
    ensures { result ≡ place date.year date.month date.day }
{
    360 * date.year + 30 * date.month + date.day
}

fn date_within(day: u32) -> Date
    requires { day ≤ 109572 }
    ensures value { result ≡ date (year_of day) (month_of day) (day_of day) }
    ensures bounds { (result.year ≤ 2199) × (result.month ≤ 12) × (result.day ≤ 31) }
{
    Date::of(day).unwrap()
}

// The place of a first date, or of a European second date.
fn place_cut(day: u32) -> u32
    requires { day ≤ 109572 }
    ensures { result ≡ first_place day }
{
    let date = date_within(day);
    place_of(Date {
        day: cut_to_thirty(date.day),
        ..date
    })
}

fn bond_within(a: u32, b: u32) -> u32
    requires { (a ≤ b) × (b ≤ 109572) }
    ensures { result ≡ bond a b }
{
    let first = date_within(a);
    let second = date_within(b);
    let day = bond_second_day(first.day, second.day);
    place_of(Date { day, ..second }) - place_cut(a)
}

fn european_within(a: u32, b: u32) -> u32
    requires { (a ≤ b) × (b ≤ 109572) }
    ensures { result ≡ european a b }
{
    place_cut(b) - place_cut(a)
}

impl DayCount for BondBasis {
    const DENOMINATOR: u32 = DAYS_A_YEAR;

    ghost counted = { λ _. bond };

    ghost per = { 360 };

    ghost lawful = { λ basis. bond_lawful };

    fn per_year(&self) -> u32 {
        Self::DENOMINATOR
    }

    fn count(&self, a: u32, b: u32) -> u32
        ensures value { result ≡ asked bond a b }
        ensures formula { BondByFormula }
    {
        ranged(bond_within, a, b)
    }
}

impl DayCount for European {
    const DENOMINATOR: u32 = DAYS_A_YEAR;

    ghost counted = { λ _. european };

    ghost per = { 360 };

    ghost lawful = { λ basis. european_lawful };

    fn per_year(&self) -> u32 {
        Self::DENOMINATOR
    }

    fn count(&self, a: u32, b: u32) -> u32
        ensures value { result ≡ asked european a b }
        ensures formula { EuropeanByFormula }
    {
        ranged(european_within, a, b)
    }
}
