//! The bitmap of a node with an index of its chunks: of each block of 128 chunks it keeps whether one of
//! them may be in the set, and whether one may be to be copied. What it answers is the map's own answer,
//! and a search passes over the other blocks.
#![tactic(auto)]

mod indexed_map;
mod search;

pub use indexed_map::IndexedMap;

#[cfg(test)]
mod tests;
