// Day counts: how many days of interest lie between two days, and how many make a year.
#![tactic(auto)]

mod actual;
mod count;
mod ranged;
mod thirty;

pub use actual::{Actual, Actual360, Actual365, actual_360, actual_365};
pub use count::DayCount;
pub use thirty::{BondBasis, European};
