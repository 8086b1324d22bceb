//! `mdc` plays scripts of cluster events over a mirror's legs, in memory or in the image files of an
//! array, which it makes, shows and upgrades, and runs scripts of a lock space, which may be spread over
//! nodes.
#![tactic(auto)]

ghost use Rattle.std.specs.Prelude.{◌≡◌, drop};

mod array;
mod endings;
mod images;
mod inputs;
mod locks;
mod play;
mod scripts;
mod status;
#[cfg(test)]
mod tests;
mod wire;

use crate::play::play;
use crate::status::Status;
use leg_shelf::FolderShelf;
use script_text::{StdSink, StdSource};
use std::alloc::AllocError;
use std::env;
use std::io::ErrorKind;
use std::process::ExitCode;

// The words after the program's name.
fn after_name(words: &[String]) -> &[String]
    ensures { result.now ≡ drop 1 words.now }
{
    match words.split_first() {
        Some((_, rest)) => rest,
        None => words,
    }
}

fn main(rt: HostRuntime) -> ExitCode {
    let alloc = rt.alloc();
    let words = match env::args(&rt) {
        Ok(args) => args.collect(alloc),
        Err(fault) if fault.kind() == ErrorKind::OutOfMemory => Err(AllocError),
        // A word that isn't UTF-8 makes no command.
        Err(_) => Ok(Vec::new(alloc)),
    };
    let status = match (words, StdSource::new(alloc, rt.stdin())) {
        (Ok(words), Ok(mut source)) => {
            let mut sink = StdSink::new(rt.stdout());
            let mut shelf = FolderShelf::new(&rt);
            play(
                &rt,
                alloc,
                after_name(words.as_slice()),
                &mut shelf,
                &mut source,
                &mut sink,
            )
        }
        _ => Status::Memory,
    };
    ExitCode::from(status.code())
}
