// The dates and the rate that a register was opened with.
ghost use Rattle.std.specs.Prelude.{◌≡◌, ◌+◌, ◌<◌, ◌≤◌, ◌↔◌, ℕ, [], true, length, IsTrue, slice_index, EachIndex};
ghost use Rattle.arrayvec.specs.ArrayVec.{array_vec_len};
ghost use Rattle.days.specs.Calendar.{last_day};
ghost use Rattle.register.specs.Calls.{steady};

use arrayvec::ArrayVec;
use days::LAST_DAY;

pub(crate) const MOST_DATES: usize = 481;

// Neighbouring dates stand at most this many days apart.
const WIDEST: u32 = 800;

// No dates while the register is empty.
#[derive(Drop)]
pub(crate) struct Terms {
    pub(crate) dates: ArrayVec<u32, MOST_DATES>,
    pub(crate) rate: u64,
    ghost few: { array_vec_len dates ≤ 481 },
    ghost low: { rate ≤ 50000 },
    ghost rising: { steady dates.items ≡ true },
}

fn are_days(dates: &[u32]) -> bool
    ensures { IsTrue result ↔ EachIndex dates.now (λ k. slice_index dates.now k ≤ last_day) }
{
    dates.iter().all(|date| *date <= LAST_DAY)
}

// Whether each date but the first follows the one before it closely.
fn rise_closely(dates: &[u32]) -> bool
    ensures { IsTrue result ↔ ((k : ℕ) → k + 1 < length dates.now → (slice_index dates.now k < slice_index dates.now (k + 1)) × (slice_index dates.now (k + 1) ≤ slice_index dates.now k + 800)) }
{
    dates.is_sorted_by(|date, next| date < next && *next - *date <= WIDEST)
}

pub(crate) fn is_steady(dates: &[u32]) -> bool
    ensures { result ≡ steady dates.now }
{
    are_days(dates) && rise_closely(dates)
}

impl Terms {
    pub(crate) fn none() -> Terms
        ensures { (result.dates.items ≡ []) × (result.rate ≡ 0) }
    {
        Terms {
            dates: ArrayVec::new(),
            rate: 0,
        }
    }

    pub(crate) fn new(dates: &[u32], rate: u64) -> Terms
        requires few { length dates.now ≤ 481 }
        requires low { rate ≤ 50000 }
        requires in_order { steady dates.now ≡ true }
        ensures dates { result.dates.items ≡ dates.now }
        ensures rate { result.rate ≡ rate }
    {
        Terms {
            dates: ArrayVec::try_from(dates).unwrap(),
            rate,
        }
    }
}
