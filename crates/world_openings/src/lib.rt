//! What an array opens with, the state at its opening, and the legs of a header in memory.
#![tactic(auto)]

mod header;
mod opened;
mod opening;
#[cfg(test)]
mod tests;

pub use header::header_leg;
pub use opened::open_state;
pub use opening::Opening;
