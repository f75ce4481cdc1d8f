// Closed-day sets, and the rolling of days off them.
#![tactic(auto)]

mod closed;
mod common;
mod list;
mod movable;
mod pattern;
mod rolling;
mod union;

pub use closed::ClosedDays;
pub use common::weekends_and_easter;
pub use list::DatedList;
pub use movable::EasterRule;
pub use pattern::WeekdayPattern;
pub use rolling::{Convention, UnknownLetter};
pub use union::Union;

#[cfg(test)]
mod tests;
