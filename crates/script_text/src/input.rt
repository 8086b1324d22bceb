ghost use Rattle.std.specs.Prelude.{◌≡◌, ◌<◌, ◌≤◌, ◌+◌, Ok, Err, None, IfOk, IfSome, OnErr, vec_len, true};
ghost use Rattle.std.specs.Option.{option_to_list};
ghost use Rattle.mdc_types.specs.Faults.{Rose, HasCause};
ghost use Rattle.script_text.specs.Lines.{input_part, script_limit};
ghost use Rattle.script_text.specs.Outside.{with_front, IsAtEnd, TookOfPart};
ghost use Rattle.script_text.specs.declared.input.InputEnd.TheVariants.{Memory, Failed as read_failed};

use crate::Source;
use crate::reading::SCRIPT_LIMIT;
use mdc_types::Failed;
use std::alloc::{AllocFailed, Global};

/// Why no script was taken from a source.
#[derive(Clone, Copy, PartialEq, Eq, Debug)]
pub enum InputEnd {
    /// A read failed.
    Failed,
    Memory,
}

impl From<Failed> for InputEnd {
    ghost from_gives = { λ _ e. e ≡ read_failed };

    fn from(_e: Failed) -> InputEnd {
        InputEnd::Failed
    }
}

impl<T: Drop> From<AllocFailed<T>> for InputEnd {
    ghost from_gives = { λ _ e. e ≡ Memory };

    fn from(_e: AllocFailed<T>) -> InputEnd {
        InputEnd::Memory
    }
}

const END_LINE: &[u8] = b"end\n";

// The next byte, or nothing at the end of the input.
fn next_byte<S: Source>(source: &mut S) -> Result<Option<u8>, Failed>
    ensures taken { IfOk result (λ byte. S.left source.old ≡ with_front (option_to_list byte) (S.left source.new)) }
    ensures end { result ≡ Ok None → IsAtEnd (S.left source.old) }
    ensures err { OnErr result (S.left source.new ≡ S.left source.old) }
    ensures cause { HasCause (λ e. true) (S.faults source.old) (S.faults source.new) result }
{
    let mut buf = [0];
    if source.read(&mut buf)? == 0 {
        return Ok(None);
    }
    Ok(Some(buf[0]))
}

/// Takes a script from the source, one byte a call: the bytes up to the line feed of the first line
/// `end`, or up to the end of the input, or up to one byte over what a script may hold. What follows
/// stays in the source.
pub fn read_input<S: Source>(alloc: Global, source: &mut S) -> Result<Vec<u8>, InputEnd>
    ensures taken { IfOk result (λ bytes. S.left source.old ≡ with_front bytes.items (S.left source.new)) }
    ensures part { IfOk result (λ bytes. IfSome (S.left source.old) (λ left. bytes.items ≡ input_part left)) }

    // Whatever the source tells, no more is taken.
    ensures alone { IfOk result (λ bytes. input_part bytes.items ≡ bytes.items) }
    ensures length { IfOk result (λ bytes. vec_len bytes ≤ script_limit + 1) }

    ensures err { OnErr result (TookOfPart (S.left source.old) (S.left source.new)) }
    ensures failed { result ≡ Err InputEnd.Failed → Rose (S.faults source.old) (S.faults source.new) }
    ensures later { S.faults source.old ≤ S.faults source.new }
{
    let mut bytes = Vec::new(alloc);
    let mut line_start = 0;
    while bytes.len() <= SCRIPT_LIMIT {
        let Some(byte) = next_byte(source)? else {
            return Ok(bytes);
        };
        bytes.push(byte)?;
        if byte == b'\n' {
            if &bytes[line_start..] == END_LINE {
                return Ok(bytes);
            }
            line_start = bytes.len();
        }
    }
    Ok(bytes)
}
