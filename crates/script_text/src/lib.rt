//! Scripts: their grammar and its reader, and the traits through which scripts come and text goes.
//!
//! A script is lines of UTF-8, each ended by a line feed, which the last may lack. Words are parted by
//! one space. An empty line, and one that begins with `#`, are skipped. The first other line is the
//! header, `array LEGS SECTORS CHUNK NODES`, `warm`, `array2` or `warm2` with the same numbers. Just
//! after it a line `room R` may stand, and then lines `spare L` and `fault L T old|new`. Then come the
//! lines of events, one form for each event of `mdc_types`, the lines `auto K` and `storm SEED K` of
//! events that the program chooses, and the queries `view N`, `map N`, `slot L D`, `record`, `size N`,
//! `check` and `compare`. The line `end` ends the script, and what follows isn't judged. Up to the line
//! feed of that line a script holds at most 16,777,216 bytes.
//!
//! A script of images has the header `images` alone, and just after it the lines of events and queries.
//! All else is as above.
//!
//! Numbers are decimal, without leading zeros, and have 32 bits; those of nodes and legs have 8. A
//! value is `-`, which is empty, or 2 to 1,024 lower-case hexadecimal digits, an even number of them.
//! The rest of the sector is zero.
//!
//! A lock script has no header. Its lines are `ask N RES MODE`, `now N RES MODE`, `convert N RES MODE`,
//! `up N RES MODE`, `grant RES`, `release N RES`, `die N` and `calls N RES`, with the same skipped lines,
//! the same line `end` and the same limit. Its nodes are 0 to 15, its resources `bitmap000` to
//! `bitmap015`, `token`, `message`, `ack`, `no-new-dev` and `resync`, and its modes `NL`, `CR`, `CW`,
//! `PR`, `PW` and `EX`.
//!
//! A wire script has the header `nodes N` of 1 to 16 nodes. Its lines are `ask N RES MODE`,
//! `convert N RES MODE`, `release N RES`, `deliver FROM TO`, `serve RES`, `die N` and
//! `holds N RES`, with the same skipped lines, the same line `end` and the same limit. Its nodes
//! are 0 to 255.
//!
//! Of bytes that are no script the first line outside the grammar is told, and what is wrong with it.
#![tactic(auto)]

mod arguments;
mod events;
mod faults;
mod header;
mod images;
mod input;
mod lines;
mod locks;
mod memory;
mod numbers;
mod queries;
mod reading;
mod script;
mod sink;
mod source;
mod std_io;
mod text_out;
mod wire;

pub use faults::{FaultKind, ScriptEnd, ScriptFault};
pub use images::read_images;
pub use input::{InputEnd, read_input};
pub use locks::{LockLine, LockScript, read_locks};
pub use memory::{MemSink, MemSource};
pub use numbers::{byte, number, put_hex};
pub use reading::{part_is_judged_as_all, read_script};
pub use script::{FaultLine, Line, Script, ScriptLines, Start};
pub use sink::{Sink, write_all};
pub use source::Source;
pub use std_io::{StdSink, StdSource};
pub use text_out::TextOut;
pub use wire::{WireLine, WireScript, read_wire};

#[cfg(test)]
mod tests;
