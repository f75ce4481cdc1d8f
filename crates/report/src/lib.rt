// Reports on the deals of a text.
#![tactic(auto)]

mod api;
mod calls;
mod closings;
mod deal;
mod deal_text;
mod drafts;
mod gathering;
mod ledger;
mod page;
mod segments;
mod stopped;

pub use api::fault_line;
pub use ledger::Ledger;
pub use stopped::Stopped;
