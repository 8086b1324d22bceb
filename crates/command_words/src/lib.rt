//! The words of the program `mdc`, read as a command.
//!
//! The words are one of these lines.
//!
//! - `create NAME LEGS SECTORS CHUNK UUID` or the same with a word ROOM at the end: it makes the images
//!   of an array of image version 1. `create2` does so of image version 2. Without ROOM the room is
//!   SECTORS.
//! - `show NAME`: it tells what the images of an array hold.
//! - `play`: it plays the script of its input. `play NAME` plays it over the images of that array.
//! - `upgrade NAME TO`: it makes images of version 2 of an array of version 1, under another name.
//! - `locks`, `wire`: it runs the lock script, the wire script of its input.
//!
//! NAME and TO are 1 to 31 ASCII letters, digits or `_`. UUID is 32 digits `0` to `9` and `a` to `f`,
//! two for each byte from the first on. The others are numbers, written as in a script: decimal, without
//! leading zeros, of 32 bits, and LEGS of 8.
#![tactic(auto)]

mod arrays;
mod command;
mod grammar;
mod names;
mod reading;

pub use command::{Command, WordsEnd};
pub use reading::read_words;

#[cfg(test)]
mod tests;
