// What a call does to all rows at once.
ghost use Rattle.std.specs.Prelude.{◌≡◌, ◌+◌, ◌*◌, ◌^◌, ◌<◌, ◌≤◌, map, length, sum, MatchOption};
ghost use Rattle.register.specs.Rows.{accrued, posted, total_holding, total_ticks, total_worth, total_units, opened};

use crate::row::Row;
use std::array;

const MOST_NOMINAL: u64 = 10_000_000_000;

pub(crate) fn accrue_rows(rows: &mut [Row], rate: u64, n: u64)
    requires { (total_ticks rows.old + total_holding rows.old * rate * n < 2 ^ 64) × (total_holding rows.old * rate < 2 ^ 64) }
    ensures { rows.new ≡ map (accrued rate n) rows.old }
{
    for row in rows.iter_mut() {
        row.accrue(rate, n);
    }
}

// Answers the units that became due.
pub(crate) fn post_rows(rows: &mut [Row], v: u64) -> u64
    requires unit { 100000 ≤ v }
    requires ticks { total_ticks rows.old < 2 ^ 64 }
    requires money { total_worth 100000 rows.old < 2 ^ 80 }
    ensures value { result ≡ total_units v rows.old }
    ensures after { rows.new ≡ map (posted v) rows.old }
{
    let mut units = 0;
    for row in rows.iter_mut() {
        units += row.post(v);
    }
    units
}

pub(crate) fn rows_of(holdings: &[u64]) -> [Row; 16]
    requires { length holdings.now ≤ 16 }
    ensures { result ≡ opened holdings.now }
{
    array::from_fn(|i| Row::opened(holdings.get(i).copied().unwrap_or(0)))
}

// The sum of the holdings, where it is at most the largest nominal.
pub(crate) fn nominal_of(holdings: &[u64]) -> Option<u64>
    ensures { MatchOption result (10000000000 < sum holdings.now) (λ n. (n ≡ sum holdings.now) × (n ≤ 10000000000)) }
{
    let mut nominal = 0;
    for holding in holdings {
        if *holding > MOST_NOMINAL - nominal {
            return None;
        }
        nominal += *holding;
    }
    Some(nominal)
}
