// Day numbers, dates and Easter from 1900 to 2199, and the refusals that the whole ledger shares.
#![tactic(auto)]

mod computus;
mod dates;
mod display;
mod refusal;
mod week;

pub use computus::easter;
pub use dates::{Date, FIRST_YEAR, LAST_DAY, LAST_YEAR, date_of, days_in_month, month_end};
pub use display::DateOrNone;
pub use refusal::{Layer, Refusal};
pub use week::Weekday;

#[cfg(test)]
mod tests;
