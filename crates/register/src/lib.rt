// The register of a bond: who holds it, and the interest of each holder.
#![tactic(auto)]

mod api;
mod apply;
mod book;
mod call;
mod calls;
mod history;
mod judge;
mod row;
mod rows;
mod state;
mod terms;
mod unit;

pub use call::Call;
pub use history::play;
pub use row::Row;
pub use state::Register;
pub use unit::ticks_per_unit;

#[cfg(test)]
mod tests;
