// Lines of text in buffers that the caller lends: each line is written whole or not at all.
#![tactic(auto)]

mod dates;
mod draft;
mod laying;
mod numbers;
mod words;

pub use draft::Draft;
pub use laying::{Full, lay};

#[cfg(test)]
mod tests;
