//! The lines of a node's helping events that come after its messages: the pages of its bitmap, its
//! requests, the slot that it recovers, and what it copies. Each line gives at most one event, the first
//! of its alternatives whose condition and guards hold.
#![tactic(auto)]

mod begins;
mod chunks;
mod copies;
mod ends;
mod guarded;
mod looks;
mod pages;
mod requests;
mod slots;
#[cfg(test)]
mod tests;

pub use begins::beginning;
pub use chunks::cleaning;
pub use copies::copying;
pub use ends::{ending, turning};
pub use pages::marking;
pub use requests::flying;
pub use slots::recovering;
