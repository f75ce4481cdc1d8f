// One holder's row.
ghost use Rattle.std.specs.Prelude.{◌≡◌, ◌+◌, ◌*◌, ◌/◌, ◌^◌, ◌<◌, ◌≤◌};
ghost use Rattle.register.specs.Rows.{accrued, posted, settled, gained, lost, opened_row, worth};
ghost use Rattle.register.specs.Rules.{unit};

use crate::unit::ticks_per_unit;
use counts::DayCount;

// A holding in minor units of nominal; interest that was paid, that is due, and that is carried in ticks.
#[derive(Clone, Copy, Default)]
pub struct Row {
    pub holding: u64,
    pub paid: u64,
    pub due: u64,
    pub ticks: u64,
}

impl Row {
    // The interest of a row in ticks: what was paid, what is due and what is carried.
    pub fn worth<D: DayCount>(&self, basis: &D) -> u128
        ensures { result ≡ worth (unit D.per) self.now }
    {
        (self.paid as u128 + self.due as u128) * ticks_per_unit(basis) as u128 + self.ticks as u128
    }

    pub(crate) fn opened(holding: u64) -> Row
        ensures { result ≡ opened_row holding }
    {
        Row {
            holding,
            paid: 0,
            due: 0,
            ticks: 0,
        }
    }

    pub(crate) fn accrue(&mut self, rate: u64, n: u64)
        requires { (self.old.ticks + self.old.holding * rate * n < 2 ^ 64) × (self.old.holding * rate < 2 ^ 64) }
        ensures { self.new ≡ accrued rate n self.old }
    {
        self.ticks += self.holding * rate * n;
    }

    // Answers the units that became due.
    pub(crate) fn post(&mut self, v: u64) -> u64
        requires { (0 < v) × (self.old.due + self.old.ticks / v < 2 ^ 64) }
        ensures value { result ≡ self.old.ticks / v }
        ensures after { self.new ≡ posted v self.old }
    {
        let units = self.ticks / v;
        self.due += units;
        self.ticks %= v;
        units
    }

    // Answers what was paid.
    pub(crate) fn settle(&mut self) -> u64
        requires { self.old.paid + self.old.due < 2 ^ 64 }
        ensures value { result ≡ self.old.due }
        ensures after { self.new ≡ settled self.old }
    {
        let due = self.due;
        self.paid += due;
        self.due = 0;
        due
    }

    pub(crate) fn gain(&mut self, amount: u64)
        requires { self.old.holding + amount < 2 ^ 64 }
        ensures { self.new ≡ gained amount self.old }
    {
        self.holding += amount;
    }

    pub(crate) fn lose(&mut self, amount: u64)
        requires { amount ≤ self.old.holding }
        ensures { self.new ≡ lost amount self.old }
    {
        self.holding -= amount;
    }
}
