// Ticks: the small parts of a unit of money in which interest is carried.
ghost use Rattle.std.specs.Prelude.{◌≡◌, ◌≤◌};
ghost use Rattle.register.specs.Rules.{unit};

use counts::DayCount;

// A rate is in so many parts, each of which makes a tick for a minor unit held over one counted day.
const PARTS: u64 = 100_000;

// So many ticks are one minor unit of money.
pub fn ticks_per_unit<D: DayCount>(basis: &D) -> u64
    ensures value { result ≡ unit D.per }
    ensures bounds { (100000 ≤ result) × (result ≤ 36600000) }
{
    PARTS * basis.per_year() as u64
}
