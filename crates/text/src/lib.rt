// Texts of deals: what each line says, or which line is the first that says nothing.
#![tactic(auto)]

mod at;
mod basis;
mod body;
mod fault;
mod fields;
mod finding;
mod kind;
mod line;
mod mark;
mod one_line;
mod place;
mod reading;
mod settling;
mod standing;
mod taking;
mod unread;
mod words;

pub use at::At;
pub use basis::Basis;
pub use fault::Fault;
pub use line::{Line, Terms};
pub use reading::{count_lines, read};
pub use unread::Unread;

#[cfg(test)]
mod tests;
