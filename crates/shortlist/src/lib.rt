// Lists of bounded length that lie in the value itself, and that are copied with it.
#![tactic(auto)]

mod blank;
mod list;

pub use blank::Blank;
pub use list::{NoRoom, ShortList};

#[cfg(test)]
mod tests;
