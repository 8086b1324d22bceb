//! The numbers, sets, events, outcomes and refusals of a clustered mirror.
#![tactic(auto)]

mod bits;
mod chunks;
mod events;
mod failed;
mod geometry;
mod numbers;
mod outcomes;
mod pages;
mod refusals;
mod resources;
mod roles;

pub use bits::{has_leg, has_node, with_leg, with_node, without_leg, without_node};
pub use chunks::ChunkSet;
pub use events::{Event, Wish};
pub use failed::Failed;
pub use geometry::{GeomError, Geometry};
pub use numbers::{ChunkNo, LegId, NodeId, PageNo, Range, ReadNo, Sector, SectorNo, WriteNo};
pub use outcomes::{Entry, Outcome};
pub use pages::{first_page_left, is_whole, leg_left, mark_page};
pub use refusals::{Part, Refusal, Word};
pub use resources::Res;
pub use roles::{NodeState, Role, Roles};
