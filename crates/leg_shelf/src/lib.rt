//! Shelves: files by their names, as bytes and as legs; one in memory, and one over a folder.
#![tactic(auto)]

mod folder;
mod memory;
mod names;
mod paged;
mod sectors;
mod shelf;
#[cfg(test)]
mod tests;

pub use folder::FolderShelf;
pub use memory::MemShelf;
pub use names::is_file_name;
pub use paged::PagedLeg;
pub use shelf::{Shelf, ShelfEnd};
