// The schedule of a deal: its dates, rolled off closed days.
#![tactic(auto)]

mod dates;
mod deal;
mod months;
mod scheduling;

pub use deal::{Deal, Stub};
pub use scheduling::schedule;
