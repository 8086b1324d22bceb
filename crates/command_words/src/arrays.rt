ghost use Rattle.std.specs.Prelude.{◌≡◌};
ghost use Rattle.command_words.specs.Arrays.{sizes_of, uuid_of};

use mdc_types::Geometry;
use script_text::{byte, number, put_hex};

/// The sizes that these words say, of image version 2 or not, if there is such an array.
pub(crate) fn geometry(
    second: bool,
    legs: &str,
    sectors: &str,
    room: &str,
    chunk: &str,
) -> Option<Geometry>
    ensures { result ≡ sizes_of second legs.now sectors.now room.now chunk.now }
{
    let legs = byte(legs)?;
    let sectors = number(sectors)?;
    let room = number(room)?;
    let chunk = number(chunk)?;
    if second {
        Geometry::second(legs, sectors, room, chunk).ok()
    } else {
        Geometry::grown(legs, sectors, room, chunk).ok()
    }
}

/// The uuid whose bytes the 32 digits of the word write.
pub(crate) fn uuid(word: &str) -> Option<[u8; 16]>
    ensures { result ≡ uuid_of word.now }
{
    if word.len() != 32 {
        return None;
    }
    let mut bytes = [0; 16];
    put_hex(&mut bytes, word.as_bytes())?;
    Some(bytes)
}
