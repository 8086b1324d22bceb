//! The rows of offers: what a round may be for, and the superblocks that it proposes.
#![tactic(auto)]

mod guards;
mod offering;
mod superblocks;
mod wishes;

pub use guards::{check_loaded, holds_device_lock};
pub use offering::{may_offer, offer};
pub use superblocks::{may_write_super, write_super};
pub use wishes::may_wish;
