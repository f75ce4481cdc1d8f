// The rules of the calls: each is judged, and then changes the book.
ghost use Rattle.register.specs.Calls.{advance, transfer, redemption, posting, payment, opening};
ghost use Rattle.register.specs.Registers.{GoesByRule};

use crate::book::Book;
use crate::state::Register;
use crate::terms::Terms;
use crate::unit::ticks_per_unit;
use counts::DayCount;
use days::Refusal;

// What a call is made with comes as the public methods take it, here and where it is judged; where calls are kept, each is
// a `Call`.
impl<D: DayCount> Register<D> {
    // A holder's due is paid; answers it.
    pub(crate) fn make_payment(&mut self, holder: u64) -> Result<u64, Refusal>
        ensures { GoesByRule D.counted D.per self.old (payment holder) self.new result }
    {
        self.judge_payment(holder)?;
        Ok(self.book.pay(holder as usize))
    }

    // An amount is taken off a holding; answers the amount.
    pub(crate) fn make_redemption(&mut self, holder: u64, amount: u64) -> Result<u64, Refusal>
        ensures { GoesByRule D.counted D.per self.old (redemption holder amount) self.new result }
    {
        self.judge_redemption(holder, amount)?;
        self.book.redeem(holder as usize, amount);
        Ok(amount)
    }

    // An amount of holding goes from one holder to another; answers the amount.
    pub(crate) fn make_transfer(&mut self, from: u64, to: u64, amount: u64) -> Result<u64, Refusal>
        ensures { GoesByRule D.counted D.per self.old (transfer from to amount) self.new result }
    {
        self.judge_transfer(from, to, amount)?;
        self.book.transfer(from as usize, to as usize, amount);
        Ok(amount)
    }

    // Interest accrues to a day; answers the counted days.
    pub(crate) fn make_advance(&mut self, day: u32) -> Result<u64, Refusal>
        ensures { GoesByRule D.counted D.per self.old (advance day) self.new result }
    {
        self.judge_advance(day)?;
        let counted = self.basis.count(self.first_date(), day);
        let n = (counted as u64).saturating_sub(self.book.tally);
        self.book.accrue(self.terms.rate, n);
        self.today = day;
        Ok(n)
    }

    // Whole units become due; answers their sum. On the day that ends it, the period ends.
    pub(crate) fn make_posting(&mut self) -> Result<u64, Refusal>
        ensures { GoesByRule D.counted D.per self.old posting self.new result }
    {
        self.judge_posting()?;
        let units = self.book.post(ticks_per_unit(&self.basis));
        if self.today == self.end() {
            self.book.begin();
        }
        Ok(units)
    }

    // An empty register is opened; answers the nominal.
    pub(crate) fn make_opening(
        &mut self,
        dates: &[u32],
        rate: u64,
        holdings: &[u64],
    ) -> Result<u64, Refusal>
        ensures { GoesByRule D.counted D.per self.old (opening dates.now rate holdings.now) self.new result }
    {
        let nominal = self.judge_opening(dates, rate, holdings)?;
        self.terms = Terms::new(dates, rate);
        self.book = Book::opened(holdings);
        self.holders = holdings.len();
        self.today = dates[0];
        Ok(nominal)
    }
}
