//! The rows of message rounds: who asks what, what is offered and published, and what comes of it.
#![tactic(auto)]

mod asking;
mod finishing;
mod granting;
mod locking;
mod messages;
mod publishing;
mod quitting;
mod tables;

pub use asking::{ask_message, ask_token, may_ask_message, may_ask_token};
pub use finishing::{finish_round, may_finish_round};
pub use granting::{asker, grant, may_grant};
pub use locking::{lock_device, may_lock_device};
pub use messages::{eight, offer};
pub use publishing::{
    check_drained, check_drained_in, check_reads_nothing, may_publish, publish, unwritten_leg,
};
pub use quitting::{may_quit, quit};
