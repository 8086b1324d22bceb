//! The turns of a storm: what each does is drawn by a generator from the state of the cluster.
#![tactic(auto)]

mod drawing;
mod generator;
mod nodes;
mod turning;

pub use drawing::Drawn;
pub use turning::{TurnKind, cut_after, named, turn};
