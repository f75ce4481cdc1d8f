// The calendar of most markets: weekends, Good Friday and Easter Monday are closed.
ghost use Rattle.std.specs.Prelude.{◌≡◌, ℕ, ◌||◌};
ghost use Rattle.calendar.specs.Figures.{weekends_and_easter};
ghost use Rattle.calendar.specs.Kinds.{pattern_closes, easter_closes};

use crate::closed::ClosedDays;
use crate::movable::EasterRule;
use crate::pattern::WeekdayPattern;
use crate::union::Union;

pub fn weekends_and_easter() -> Union<WeekdayPattern, EasterRule>
    ensures { (n : ℕ) → ⟦<Union<WeekdayPattern, EasterRule> as ClosedDays>⟧.closed result n ≡ weekends_and_easter n }
{
    let first = WeekdayPattern::new(0b000_0011).unwrap();
    let second = EasterRule::new(&[-2, 1]).unwrap();
    Union { first, second }
}
