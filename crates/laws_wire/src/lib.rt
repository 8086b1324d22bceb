//! Theorems on a lock space spread over nodes, over every list of its calls.
#![tactic(auto)]

mod laws;

pub use laws::{blocks_are_told, reports_come_first, wires_are_sound};
