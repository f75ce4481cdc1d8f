// Interest in ticks, and how it falls to a seller and a buyer.
ghost use Rattle.std.specs.Prelude.{◌≡◌, ◌+◌, ◌-◌, ◌*◌, ◌^◌, min};
ghost use Rattle.register.specs.Rows.{at, worth};
ghost use Rattle.register.specs.Rules.{unit};

use counts::BondBasis;
use register::Row;

// In 1/100,000 a year.
pub const RATE: u64 = 5_000;

// In minor units.
pub const NOMINAL: u64 = 1_000_000;

// What the whole nominal makes in so many counted days.
pub fn ticks_of(days: u32) -> u128
    ensures { result ≡ 1000000 * 5000 * days }
{
    NOMINAL as u128 * RATE as u128 * days as u128
}

// What a holder was paid, is due and carries; nothing for one that the rows do not have.
pub fn worth_at(rows: &[Row], holder: usize) -> u128
    ensures { result ≡ worth (unit 360) (at rows.now holder) }
{
    rows.get(holder).map_or(0, |row| row.worth(&BondBasis))
}

// The counted days in all, and what each of the two has of them.
#[derive(Clone, Copy)]
pub struct Shares {
    pub days: u64,
    pub seller: u128,
    pub buyer: u128,
}

impl Shares {
    // No share of a register comes near half of the largest number, so that the sum is exact.
    pub fn sum(&self) -> u128
        ensures { result ≡ min (self.now.seller + self.now.buyer) (2 ^ 128 - 1) }
    {
        self.seller.saturating_add(self.buyer)
    }

    // How far these fall short of others, each by itself.
    pub fn short_of(&self, other: &Shares) -> Shares
        ensures days { result.days ≡ other.now.days - self.now.days }
        ensures seller { result.seller ≡ other.now.seller - self.now.seller }
        ensures buyer { result.buyer ≡ other.now.buyer - self.now.buyer }
    {
        Shares {
            days: other.days.saturating_sub(self.days),
            seller: other.seller.saturating_sub(self.seller),
            buyer: other.buyer.saturating_sub(self.buyer),
        }
    }
}
