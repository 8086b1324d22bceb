//! The rows of requests: writes and reads of a node, and its write-intent bitmap on the legs.
//!
//! Each row has its guards in a function of their own, and its effect in another. A row takes no
//! memory.
#![tactic(auto)]

mod bits;
mod changes;
mod guards;
mod reads;
mod writes;

pub use bits::{clear, write_page};
pub use guards::{
    may_ask_read, may_ask_write, may_break_write, may_clear, may_end_write, may_in, may_out,
    may_write_page,
};
pub use reads::{ask_read, read_in};
pub use writes::{ask_write, break_write, end_write, out_write};
