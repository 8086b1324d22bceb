//! The requests in flight of all nodes, and the guard of the file system over their writes.
#![tactic(auto)]

mod requests;

pub use requests::Requests;
