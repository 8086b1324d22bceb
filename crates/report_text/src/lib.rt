//! The printed texts of a clustered mirror's outcomes, refusals, events and queries, of events that the
//! program chose, and of a lock space's replies, also of one that is spread over nodes, exact to the byte.
#![tactic(auto)]

mod drivers;
mod events;
mod line;
mod locks;
mod outcomes;
mod queries;
mod refusals;
mod sets;
mod value;
mod wire;
mod words;

pub use drivers::{StormCounts, auto_text, storm_text};
pub use events::event_text;
pub use locks::{LockReply, lock_reply_text};
pub use outcomes::outcome_text;
pub use queries::{
    Compared, bad_text, compared_text, legal_text, map_text, record_text, size_text, slot_text,
    view_text,
};
pub use refusals::refusal_text;
pub use wire::{WireReply, wire_reply_text};

#[cfg(test)]
mod tests;
