// Sixteen rows, with the bounds that keep every sum within 64 bits.
ghost use Rattle.std.specs.Prelude.{◌≡◌, ◌+◌, ◌*◌, ◌<◌, ◌≤◌, map, length, sum, ◌≢◌, slice_index_or};
ghost use Rattle.register.specs.Rows.{accrued, posted, settled, gained, lost, total_holding, total_ticks, total_worth, total_units, zero_row, moved, redeemed, paid_out, opened};

use crate::row::Row;
use crate::rows::{accrue_rows, post_rows, rows_of};

pub(crate) const MOST_HOLDERS: usize = 16;

// The tally is the count so far in the current period. A period counts at most three years of 366 days, and a
// holding times a rate is at most 500,000,000,000,000 ticks a counted day: from these the bounds follow.
// The rows are an array, and not a vector of those in use: sixteen row structs are a form that the project keeps
// (docs/DECISIONS.md), and the rules of a register see all of them. A register counts those in use.
#[derive(Drop)]
pub(crate) struct Book {
    pub(crate) rows: [Row; 16],
    pub(crate) tally: u64,
    pub(crate) period: u64,
    ghost room: { length rows ≡ 16 },
    ghost counted: { tally ≤ 1098 },
    ghost periods: { period ≤ 480 },
    ghost nominal: { total_holding rows ≤ 10000000000 },
    ghost carried: { total_ticks rows ≤ 585600000 + 500000000000000 * tally },
    ghost money: { total_worth 100000 rows ≤ 549000000000000000 * period + 500000000000000 * tally },
}

impl Book {
    ghost use Rattle.register.specs.Books.{TurnsRows};

    // Ticks for every row, over n more counted days.
    pub(crate) fn accrue(&mut self, rate: u64, n: u64)
        requires rate { rate ≤ 50000 }
        requires within { self.old.tally + n ≤ 1098 }
        ensures rows { self.new.rows ≡ map (accrued rate n) self.old.rows }
        ensures tally { self.new.tally ≡ self.old.tally + n }
        ensures period { self.new.period ≡ self.old.period }
    {
        accrue_rows(&mut self.rows, rate, n);
        self.tally += n;
    }

    // Whole units become due in every row; answers their sum.
    pub(crate) fn post(&mut self, v: u64) -> u64
        requires low { 100000 ≤ v }
        requires high { v ≤ 36600000 }
        ensures value { result ≡ total_units v self.old.rows }
        ensures after { TurnsRows self.old (map (posted v) self.old.rows) self.new }
    {
        post_rows(&mut self.rows, v)
    }

    // The next period begins. Its rows carry less than a unit each, as after a posting.
    pub(crate) fn begin(&mut self)
        requires periods { self.old.period < 480 }
        requires carried { total_ticks self.old.rows ≤ 585600000 }
        ensures rows { self.new.rows ≡ self.old.rows }
        ensures tally { self.new.tally ≡ 0 }
        ensures period { self.new.period ≡ self.old.period + 1 }
    {
        self.period += 1;
        self.tally = 0;
    }

    // An amount of holding goes from one row to another.
    pub(crate) fn transfer(&mut self, from: usize, to: usize, amount: u64)
        requires from { from < 16 }
        requires to { to < 16 }
        requires apart { from ≢ to }
        requires covered { amount ≤ (slice_index_or self.old.rows from zero_row).holding }
        ensures { TurnsRows self.old (moved from to amount self.old.rows) self.new }
    {
        self.rows[from].lose(amount);
        self.rows[to].gain(amount);
    }

    // An amount is taken off a holding.
    pub(crate) fn redeem(&mut self, holder: usize, amount: u64)
        requires holder { holder < 16 }
        requires covered { amount ≤ (slice_index_or self.old.rows holder zero_row).holding }
        ensures { TurnsRows self.old (redeemed holder amount self.old.rows) self.new }
    {
        self.rows[holder].lose(amount);
    }

    // What is due to a holder is paid; answers it.
    pub(crate) fn pay(&mut self, holder: usize) -> u64
        requires { holder < 16 }
        ensures value { result ≡ (slice_index_or self.old.rows holder zero_row).due }
        ensures after { TurnsRows self.old (paid_out holder self.old.rows) self.new }
    {
        self.rows[holder].settle()
    }

    // Rows for holdings that add to at most the largest nominal.
    pub(crate) fn opened(holdings: &[u64]) -> Book
        requires few { length holdings.now ≤ 16 }
        requires nominal { sum holdings.now ≤ 10000000000 }
        ensures rows { result.rows ≡ opened holdings.now }
        ensures start { (result.tally ≡ 0) × (result.period ≡ 0) }
    {
        Book {
            rows: rows_of(holdings),
            tally: 0,
            period: 0,
        }
    }
}
