// The six calls on a register. Each is its rule, and its share of the law of interest.
ghost use Rattle.std.specs.Prelude.{◌≡◌, []};
ghost use Rattle.counts.specs.Counting.{asked};
ghost use Rattle.register.specs.Calls.{opening, advance as advance_call, transfer as transfer_call, redemption, posting, payment};
ghost use Rattle.register.specs.Mirrors.{After, CountsOn};
ghost use Rattle.register.specs.Registers.{GoesByLaw};
ghost use Rattle.register.specs.Rules.{rows_in_use};
ghost use Rattle.register.specs.Runs.{fresh_view};
ghost use Rattle.register.specs.Views.{view_of};

use crate::book::Book;
use crate::row::Row;
use crate::state::Register;
use crate::terms::Terms;
use counts::DayCount;
use days::Refusal;

impl<D: DayCount> Register<D> {
    // An empty register, which keeps a day count.
    pub fn new(basis: D) -> Register<D>
        ensures basis { result.basis ≡ basis }
        ensures view { view_of result ≡ fresh_view }
        ensures law { After (asked (D.counted basis)) D.per [] (view_of result) }
    {
        Register {
            basis,
            terms: Terms::none(),
            book: Book::opened(&[]),
            holders: 0,
            today: 0,
        }
    }

    // Opens an empty register with dates, a rate in 1/100,000 a year, and the holdings of holders 0, 1, ..;
    // answers the nominal.
    pub fn open(&mut self, dates: &[u32], rate: u64, holdings: &[u64]) -> Result<u64, Refusal>
        ensures { GoesByLaw D.counted D.per self.old (opening dates.now rate holdings.now) self.new result }
    {
        self.make_opening(dates, rate, holdings)
    }

    // Lets interest accrue to a day of the current period; answers the counted days.
    pub fn advance(&mut self, day: u32) -> Result<u64, Refusal>
        ensures made { GoesByLaw D.counted D.per self.old (advance_call day) self.new result }
        ensures days { CountsOn (asked (D.counted self.old.basis)) D.per (view_of self.old) day }
    {
        self.make_advance(day)
    }

    // Moves an amount of holding from one holder to another; answers the amount.
    pub fn transfer(&mut self, from: u64, to: u64, amount: u64) -> Result<u64, Refusal>
        ensures { GoesByLaw D.counted D.per self.old (transfer_call from to amount) self.new result }
    {
        self.make_transfer(from, to, amount)
    }

    // Takes an amount off a holding; answers the amount.
    pub fn redeem(&mut self, holder: u64, amount: u64) -> Result<u64, Refusal>
        ensures { GoesByLaw D.counted D.per self.old (redemption holder amount) self.new result }
    {
        self.make_redemption(holder, amount)
    }

    // Makes whole units due to every holder; answers their sum. On the day that ends it, the period ends.
    pub fn post(&mut self) -> Result<u64, Refusal>
        ensures { GoesByLaw D.counted D.per self.old posting self.new result }
    {
        self.make_posting()
    }

    // Pays what is due to a holder; answers it.
    pub fn pay(&mut self, holder: u64) -> Result<u64, Refusal>
        ensures { GoesByLaw D.counted D.per self.old (payment holder) self.new result }
    {
        self.make_payment(holder)
    }

    // The rows of the holders, holder 0 first.
    pub fn rows(&self) -> &[Row]
        ensures { result.now ≡ rows_in_use (view_of self.now) }
    {
        &self.book.rows[0..self.holders]
    }

    // The day to which interest has accrued.
    pub fn today(&self) -> u32
        ensures { result ≡ (view_of self.now).today }
    {
        self.today
    }
}
