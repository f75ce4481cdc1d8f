// Any call on a register: its rule, and its share of the law of interest.
ghost use Rattle.register.specs.Plain.{plain};
ghost use Rattle.register.specs.Registers.{GoesByLaw};

use crate::call::Call;
use crate::state::Register;
use counts::DayCount;
use days::Refusal;

impl<D: DayCount> Register<D> {
    // A match over the kinds of calls: each arm is the call of its kind.
    pub(crate) fn apply(&mut self, call: &Call) -> Result<u64, Refusal>
        ensures { GoesByLaw D.counted D.per self.old (plain call.now) self.new result }
    {
        match call {
            Call::Post => self.post(),
            Call::Open {
                dates,
                rate,
                holdings,
            } => self.open(dates, *rate, holdings),
            Call::Advance { day } => self.advance(*day),
            Call::Transfer { from, to, amount } => self.transfer(*from, *to, *amount),
            Call::Redeem { holder, amount } => self.redeem(*holder, *amount),
            Call::Pay { holder } => self.pay(*holder),
        }
    }
}
