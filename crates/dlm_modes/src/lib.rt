//! Lock modes and value blocks of a distributed lock manager.
//!
//! The modes, which of them agree, and which conversions write or read the value block are those of
//! the Linux kernel's DLM, cell for cell.
#![tactic(auto)]

mod block;
mod mode;

pub use block::Block;
pub use mode::{Mode, agrees, reads_value, weaker, writes_value};
