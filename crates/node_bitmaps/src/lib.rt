//! The bitmap of a node: which chunks its write-intent bitmap has set, which are to be copied, how
//! many live writes the node has in each, and what surely stands of it in the node's slot on the legs.
//!
//! After Linux's `Documentation/driver-api/md/md-cluster.rst` and `drivers/md/md-bitmap.h`.
#![tactic(auto)]

mod cells;
mod laws;
mod marks;
mod node_map;

pub use laws::bitmap_tells_the_map;
pub use node_map::NodeMap;
pub use slot_pages::{SlotFault, page_bits, read_page, write_page};

#[cfg(test)]
mod tests;
