// A journal of evenings: the interest that the calls alone make, with no look at the register.
ghost use Rattle.std.specs.Prelude.{◌≡◌, ◌+◌, ◌^◌, ◌<◌, map, slice_index_or, slice_set};
ghost use Rattle.counts.specs.Counting.{asked};
ghost use Rattle.register.specs.Interest.{first_of, step};
ghost use Rattle.coupons.specs.Evenings.{after_evening, gained, lost, opened, none_held};

use crate::bond::HOLDERS;
use counts::DayCount;
use register::Call;

// What is held, and the interest that it has made in ticks.
#[derive(Clone, Copy)]
pub struct Account {
    pub holding: u64,
    pub interest: u128,
}

impl Account {
    fn opened(holding: u64) -> Account
        ensures { result ≡ opened holding }
    {
        Account {
            holding,
            interest: 0,
        }
    }

    // One evening of a day with this step. The interest of a register stays far below the largest number, so that the
    // sum is exact; to stop there spares a bound on the evenings.
    fn pass_evening(&mut self, rate: u64, step: u32)
        ensures { self.new ≡ after_evening rate step self.old }
    {
        let daily = self.holding as u128 * rate as u128;
        let share = daily.saturating_mul(step as u128);
        self.interest = self.interest.saturating_add(share);
    }

    // Holdings of a register add to far less than the largest number.
    fn gain(&mut self, amount: u64)
        ensures { self.new ≡ gained amount self.old }
    {
        self.holding = self.holding.saturating_add(amount);
    }

    // An accepted call takes no more than is held.
    fn lose(&mut self, amount: u64)
        ensures { self.new ≡ lost amount self.old }
    {
        self.holding = self.holding.saturating_sub(amount);
    }
}

// The first date of the period that holds a day: of rising dates the last that is not after it.
fn first_date(dates: &[u32], day: u32) -> u32
    ensures { result ≡ first_of dates.now 0 day }
{
    dates
        .iter()
        .take_while(|date| **date <= day)
        .last()
        .copied()
        .unwrap_or(0)
}

// How much the count from the first date of its period grows over a day.
fn step_of<D: DayCount>(basis: &D, dates: &[u32], day: u32) -> u32
    requires { day + 1 < 2 ^ 32 }
    ensures { result ≡ step (asked (D.counted basis.now)) dates.now day }
{
    let first = first_date(dates, day);
    basis
        .count(first, day + 1)
        .saturating_sub(basis.count(first, day))
}

// A loop of its own beside the register's: the journal shares nothing with what it is held against.
fn pass_evenings(accounts: &mut [Account], rate: u64, step: u32)
    ensures { accounts.new ≡ map (after_evening rate step) accounts.old }
{
    for account in accounts.iter_mut() {
        account.pass_evening(rate, step);
    }
}

// One account for each holder, and one that holds the nominal.
#[derive(Clone, Copy)]
pub struct Journal<'a> {
    dates: &'a [u32],
    rate: u64,
    today: u32,
    pub holders: [Account; HOLDERS],
    pub all: Account,
}

impl<'a> Journal<'a> {
    pub fn new() -> Journal<'a> {
        Journal {
            dates: &[],
            rate: 0,
            today: 0,
            holders: [Account::opened(0); HOLDERS],
            all: Account::opened(0),
        }
    }

    // Notes a call that was accepted, each kind in its own way.
    pub fn note<D: DayCount>(&mut self, basis: &D, call: &Call<'a>) {
        match call {
            Call::Post | Call::Pay { .. } => (),
            Call::Open {
                dates,
                rate,
                holdings,
            } => self.open(dates, *rate, holdings),
            Call::Advance { day } => self.pass_to(basis, *day),
            Call::Transfer { from, to, amount } => {
                self.take(*from, *amount);
                self.give(*to, *amount);
            }
            Call::Redeem { holder, amount } => self.take(*holder, *amount),
        }
    }

    fn open(&mut self, dates: &'a [u32], rate: u64, holdings: &[u64]) {
        self.dates = dates;
        self.rate = rate;
        self.today = dates.first().copied().unwrap_or(0);
        for (i, holding) in holdings.iter().enumerate() {
            self.give(i as u64, *holding);
        }
    }

    // The evening of each day from today to before the new day.
    fn pass_to<D: DayCount>(&mut self, basis: &D, day: u32) {
        for evening in self.today..day {
            let step = step_of(basis, self.dates, evening);
            pass_evenings(&mut self.holders, self.rate, step);
            self.all.pass_evening(self.rate, step);
        }
        self.today = day;
    }

    // A holder that has no account changes none. The test and the index: behind `get_mut` a proof knows nothing of what was
    // written.
    fn give(&mut self, holder: u64, amount: u64)
        ensures holders { self.new.holders ≡ slice_set self.old.holders holder (gained amount (slice_index_or self.old.holders holder none_held)) }
        ensures all { self.new.all ≡ gained amount self.old.all }
    {
        let index = holder as usize;
        if index < HOLDERS {
            self.holders[index].gain(amount);
        }
        self.all.gain(amount);
    }

    // The same of what is taken. One function over what is done to an account would need clauses for its closure, and be longer
    // than both.
    fn take(&mut self, holder: u64, amount: u64)
        ensures holders { self.new.holders ≡ slice_set self.old.holders holder (lost amount (slice_index_or self.old.holders holder none_held)) }
        ensures all { self.new.all ≡ lost amount self.old.all }
    {
        let index = holder as usize;
        if index < HOLDERS {
            self.holders[index].lose(amount);
        }
        self.all.lose(amount);
    }
}
