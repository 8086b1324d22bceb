ghost use Rattle.std.specs.Prelude.{◌≡◌, ◌≤◌, ◌+◌, IfOk};
ghost use Rattle.std.specs.Option.{option_copied};
ghost use Rattle.script_text.specs.Lines.{words_after, script_limit};
ghost use Rattle.script_text.specs.Images.{images_header, ReadsImagesHeader, ReadsImages};

use crate::arguments::alone;
use crate::faults::at_line;
use crate::reading::{next_line, read_places};
use crate::{FaultKind, Line, ScriptEnd, ScriptFault, ScriptLines};
use std::alloc::Global;

// The header of this first word and the words after it.
fn header(word: &str, args: Option<&str>) -> Result<(), FaultKind>
    ensures { result ≡ images_header word.now (words_after (option_copied args.entry)) }
{
    if word != "images" {
        return Err(FaultKind::NoArray);
    }
    alone((), args)
}

// Where the line after the header begins, and that line's number.
fn read_header(bytes: &[u8]) -> Result<(usize, u32), ScriptFault>
    ensures found { ReadsImagesHeader bytes.now result }
    ensures few { IfOk result (λ x. (x.1 ≤ x.0 + 1) × (x.0 ≤ script_limit)) }
{
    let mut at = 0;
    let mut line = 1;
    while at < bytes.len() {
        let (said, next) = at_line(line, next_line(bytes, at))?;
        if let Some((word, args)) = said {
            at_line(line, header(word, args))?;
            return Ok((next, line + 1));
        }
        at = next;
        line += 1;
    }
    Err(ScriptFault {
        line,
        kind: FaultKind::NoArray,
    })
}

/// Reads a script of an array that images hold: its header is the word `images` alone, and just after
/// it come the lines of events and queries. What follows its line `end` isn't judged.
///
/// A script with another header, also one that [`read_script`](crate::read_script) takes, has the fault
/// `NoArray` at the header's line.
pub fn read_images(alloc: Global, bytes: &[u8]) -> Result<ScriptLines<'_>, ScriptEnd>
    // They are the lines of this script, or the bytes have this fault, or memory is wanting.
    ensures { ReadsImages result bytes.now }
{
    let (at, line) = read_header(bytes)?;
    let places = read_places::<Line>(alloc, bytes, at, line)?;
    Ok(ScriptLines { bytes, places })
}
