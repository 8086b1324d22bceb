//! The rows of copying and of recovery: what a node copies under the lock `resync`, what it gathers for a
//! leg that is added again, and how it recovers the slot of a node that died.
//!
//! After resync and node failure of Linux md-cluster (`Documentation/driver-api/md/md-cluster.rst`). Each
//! row has a guard, `may_..`, and an effect, which is called where the guard refuses nothing.
#![tactic(auto)]

mod changes;
mod checks;
mod copying;
mod failing;
mod gathering;
mod guards;
pub mod looks;
mod passes;
mod recovering;

pub use checks::check_heir;
pub use copying::{copy_in, copy_out, settle};
pub use gathering::gather;
pub use guards::{
    may_ask_resync, may_copy_in, may_copy_out, may_end_pass, may_gather, may_pass_again,
    may_pass_full, may_pass_own, may_recover, may_recovered, may_settle, may_slot_in, may_slot_out,
};
pub use passes::{ask_resync, end_pass, pass_again, pass_full, pass_own};
pub use recovering::{recover, recovered, slot_in, slot_out};
