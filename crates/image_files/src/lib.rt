//! The files of an array's legs: their names, and how they are opened as legs, read and given
//! back.
#![tactic(auto)]

mod closing;
mod ends;
mod laws;
mod names;
mod opening;
mod rows;
#[cfg(test)]
mod tests;

pub use closing::{close, close_after, close_all};
pub use laws::opened_and_closed;
pub use names::FileNames;
pub use opening::{OpenFile, open_file};
pub use rows::read_rows;
