//! A leg in memory that finds in a table which of its transfers fail.
#![tactic(auto)]

mod faulty;

pub use faulty::FaultyLeg;
