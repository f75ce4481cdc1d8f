// A bond that is sold whole on the second day of its first period.
ghost use Rattle.std.specs.Prelude.{◌≡◌, ◌+◌, ◌*◌};
ghost use Rattle.counts.specs.Bases.{bond};
ghost use Rattle.counts.specs.Counting.{asked};

use crate::shares::{NOMINAL, RATE, Shares, ticks_of, worth_at};
use counts::{BondBasis, DayCount};
use days::{Date, Refusal};
use register::Register;

#[derive(Clone, Copy)]
pub struct Sale {
    pub issue: u32,
    pub sold: u32,
    // the day on which the shares are looked at
    pub seen: u32,
    pub maturity: u32,
}

impl Sale {
    // Absent only if one of these is no date.
    pub fn in_january() -> Option<Sale> {
        Some(Sale {
            issue: Date::new(2023, 1, 29).number()?,
            sold: Date::new(2023, 1, 30).number()?,
            seen: Date::new(2023, 1, 31).number()?,
            maturity: Date::new(2023, 7, 29).number()?,
        })
    }

    // The fault: the days before the sale and those after it are counted each by themselves, and added.
    pub fn by_stretches(&self) -> Shares
        ensures days { result.days ≡ asked bond self.now.issue self.now.sold + asked bond self.now.sold self.now.seen }
        ensures seller { result.seller ≡ 1000000 * 5000 * asked bond self.now.issue self.now.sold }
        ensures buyer { result.buyer ≡ 1000000 * 5000 * asked bond self.now.sold self.now.seen }
    {
        let before = BondBasis.count(self.issue, self.sold);
        let after = BondBasis.count(self.sold, self.seen);
        Shares {
            days: before as u64 + after as u64,
            seller: ticks_of(before),
            buyer: ticks_of(after),
        }
    }

    // The register counts every day from the first date of the period.
    pub fn by_register(&self) -> Result<Shares, Refusal> {
        let mut register = Register::new(BondBasis);
        register.open(&[self.issue, self.maturity], RATE, &[NOMINAL, 0])?;
        let before = register.advance(self.sold)?;
        register.transfer(0, 1, NOMINAL)?;
        let after = register.advance(self.seen)?;
        Ok(Shares {
            days: before.saturating_add(after),
            seller: worth_at(register.rows(), 0),
            buyer: worth_at(register.rows(), 1),
        })
    }
}
