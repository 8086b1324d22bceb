ghost use Rattle.std.specs.Prelude.{◌≡◌};
ghost use Rattle.command_words.specs.declared.command.WordsEnd.TheVariants.{Memory};

use mdc_types::Geometry;
use std::alloc::AllocError;

/// What the program is to do. Names of arrays are 1 to 31 ASCII letters, digits or `_`.
///
/// Match it in a function that is passed the command: a pattern of a `Result` that goes into `Create`
/// gets no proof.
#[derive(Clone, Copy)]
pub enum Command<'a> {
    /// `create` and `create2`: it makes the images of a new array.
    Create {
        name: &'a str,
        geometry: Geometry,
        uuid: [u8; 16],
    },
    /// `show`: it tells what the images of an array hold.
    Show {
        name: &'a str,
    },
    /// `play` alone: it plays the script of its input.
    Play,
    /// `play` with a name: it plays that script over the images of an array.
    PlayImages {
        name: &'a str,
    },
    /// `upgrade`: it makes images of version 2 under the other name. The names differ.
    Upgrade {
        name: &'a str,
        to: &'a str,
    },
    /// `locks`: it runs the lock script of its input.
    Locks,
    /// `wire`: it runs the wire script of its input.
    Wire,
}

/// Why no command was read.
#[derive(Clone, Copy, PartialEq, Eq, Debug)]
pub enum WordsEnd {
    /// The words are none of those lines, or the numbers are those of no array.
    Usage,
    /// Memory was wanting, and nothing is said of the words.
    Memory,
}

impl From<AllocError> for WordsEnd {
    fn from(_: AllocError) -> WordsEnd
        ensures { result ≡ Memory }
    {
        WordsEnd::Memory
    }
}
