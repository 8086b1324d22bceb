//! Compares the legs that the least member reads from.
#![tactic(auto)]

mod comparing;
mod reading;

pub use comparing::{Comparison, compare_legs};
