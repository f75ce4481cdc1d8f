// When a call is refused.
ghost use Rattle.std.specs.Prelude.{◌≡◌, false, IfOk, sum};
ghost use Rattle.register.specs.Calls.{judge, IsJudged, empty, closed, end_of, unknown, uncovered, parties, good_dates, judge_holdings, opening, advance, transfer, redemption, posting, payment};
ghost use Rattle.register.specs.Rules.{first};
ghost use Rattle.register.specs.Views.{view_of, judged_by};

use crate::book::MOST_HOLDERS;
use crate::rows::nominal_of;
use crate::state::Register;
use crate::terms::{MOST_DATES, is_steady};
use days::Refusal;

// A rate is in 1/100,000 a year.
const HIGHEST_RATE: u64 = 50_000;

impl<D> Register<D> {
    fn is_empty(&self) -> bool
        ensures { result ≡ empty (judged_by self.now) }
    {
        self.terms.dates.is_empty()
    }

    fn is_closed(&self) -> bool
        ensures { result ≡ closed (judged_by self.now) }
    {
        self.terms.dates.len() as u64 <= self.book.period + 1
    }

    // The day that ends the current period.
    pub(crate) fn end(&self) -> u32
        requires { closed (judged_by self.now) ≡ false }
        ensures { result ≡ end_of (judged_by self.now) }
    {
        self.terms.dates[self.book.period as usize + 1]
    }

    // The first date of the current period.
    pub(crate) fn first_date(&self) -> u32
        requires { closed (judged_by self.now) ≡ false }
        ensures { result ≡ first (view_of self.now) }
    {
        self.terms.dates[self.book.period as usize]
    }

    fn is_unknown(&self, holder: u64) -> bool
        ensures { result ≡ unknown (judged_by self.now) holder }
    {
        self.holders as u64 <= holder
    }

    fn is_uncovered(&self, holder: u64, amount: u64) -> bool
        requires { unknown (judged_by self.now) holder ≡ false }
        ensures { result ≡ uncovered (judged_by self.now) holder amount }
    {
        amount == 0 || self.book.rows[holder as usize].holding < amount
    }

    pub(crate) fn judge_posting(&self) -> Result<(), Refusal>
        ensures { IsJudged (judge (judged_by self.now) posting) result }
    {
        if self.is_empty() {
            return Err(Refusal::RegisterEmpty);
        }
        if self.is_closed() {
            return Err(Refusal::RegisterClosed);
        }
        Ok(())
    }

    pub(crate) fn judge_payment(&self, holder: u64) -> Result<(), Refusal>
        ensures { IsJudged (judge (judged_by self.now) (payment holder)) result }
    {
        if self.is_empty() {
            return Err(Refusal::RegisterEmpty);
        }
        if self.is_unknown(holder) {
            return Err(Refusal::UnknownHolder);
        }
        Ok(())
    }

    // A register must be open for an advance, a redemption and a transfer as it must for a posting.
    pub(crate) fn judge_advance(&self, day: u32) -> Result<(), Refusal>
        ensures { IsJudged (judge (judged_by self.now) (advance day)) result }
    {
        self.judge_posting()?;
        if !(self.today..=self.end()).contains(&day) {
            return Err(Refusal::DayOutOfPeriod);
        }
        Ok(())
    }

    pub(crate) fn judge_redemption(&self, holder: u64, amount: u64) -> Result<(), Refusal>
        ensures { IsJudged (judge (judged_by self.now) (redemption holder amount)) result }
    {
        self.judge_posting()?;
        if self.is_unknown(holder) {
            return Err(Refusal::UnknownHolder);
        }
        if self.is_uncovered(holder, amount) {
            return Err(Refusal::BadAmount);
        }
        Ok(())
    }

    pub(crate) fn judge_transfer(&self, from: u64, to: u64, amount: u64) -> Result<(), Refusal>
        ensures { IsJudged (judge (judged_by self.now) (transfer from to amount)) result }
    {
        self.judge_posting()?;
        self.judge_parties(from, to, amount)
    }

    fn judge_parties(&self, from: u64, to: u64, amount: u64) -> Result<(), Refusal>
        ensures { IsJudged (parties (judged_by self.now) from to amount) result }
    {
        if self.is_unknown(from) || self.is_unknown(to) {
            return Err(Refusal::UnknownHolder);
        }
        if from == to {
            return Err(Refusal::SameHolder);
        }
        if self.is_uncovered(from, amount) {
            return Err(Refusal::BadAmount);
        }
        Ok(())
    }

    // Answers the nominal.
    pub(crate) fn judge_opening(
        &self,
        dates: &[u32],
        rate: u64,
        holdings: &[u64],
    ) -> Result<u64, Refusal>
        ensures judged { IsJudged (judge (judged_by self.now) (opening dates.now rate holdings.now)) result }
        ensures nominal { IfOk result (λ n. n ≡ sum holdings.now) }
    {
        if !self.is_empty() {
            return Err(Refusal::NotEmpty);
        }
        if !has_good_dates(dates) {
            return Err(Refusal::BadDates);
        }
        if rate > HIGHEST_RATE {
            return Err(Refusal::RateTooHigh);
        }
        judge_holdings(holdings)
    }
}

fn has_good_dates(dates: &[u32]) -> bool
    ensures { result ≡ good_dates dates.now }
{
    (2..=MOST_DATES).contains(&dates.len()) && is_steady(dates)
}

// Answers the nominal.
fn judge_holdings(holdings: &[u64]) -> Result<u64, Refusal>
    ensures judged { IsJudged (judge_holdings holdings.now) result }
    ensures nominal { IfOk result (λ n. n ≡ sum holdings.now) }
{
    if holdings.is_empty() || holdings.len() > MOST_HOLDERS {
        return Err(Refusal::BadHolderCount);
    }
    match nominal_of(holdings) {
        None | Some(0) => Err(Refusal::BadNominal),
        Some(nominal) => Ok(nominal),
    }
}
