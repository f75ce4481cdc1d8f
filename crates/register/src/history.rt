// A whole list of calls on a new register.
ghost use Rattle.std.specs.Prelude.{◌≡◌, ◌++◌, map, length, drop};
ghost use Rattle.counts.specs.Counting.{asked};
ghost use Rattle.register.specs.Plain.{played};
ghost use Rattle.register.specs.Runs.{fresh_view, run, outcomes, seen_answer, LawOfInterest};
ghost use Rattle.register.specs.Views.{view_of};

use crate::call::Call;
use crate::state::Register;
use counts::DayCount;
use days::Refusal;

// Plays calls on a new register, as many as there is room for answers, and gives back the register as they leave it.
// Each answer goes to the place of its call.
pub fn play<D: DayCount>(
    basis: D,
    calls: &[Call],
    answers: &mut [Result<u64, Refusal>],
) -> Register<D>
    ensures basis { result.basis ≡ basis }
    ensures view { view_of result ≡ run (asked (D.counted basis)) D.per fresh_view (played calls.now answers.old) }
    ensures answers { map seen_answer answers.new ≡ outcomes (asked (D.counted basis)) D.per fresh_view (played calls.now answers.old) ++ drop (length calls.now) (map seen_answer answers.old) }
    ensures law { LawOfInterest (asked (D.counted basis)) D.per (played calls.now answers.old) }
{
    let mut register = Register::new(basis);
    let count = calls.len().min(answers.len());
    // A place of the answers by its index: behind a zip of `iter_mut` a proof knows nothing of what was written.
    for (i, call) in calls[..count].iter().enumerate() {
        answers[i] = register.apply(call);
    }
    register
}
