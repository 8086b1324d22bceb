//! What many threads work out together: each answer is the one that a single thread gives.
#![tactic(auto)]

mod comparing;
mod rows;
#[cfg(test)]
mod tests;

pub use comparing::compare;
pub use rows::Rows;
