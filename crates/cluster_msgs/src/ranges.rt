ghost use Rattle.std.specs.Prelude.{◌≡◌, ◌^◌, ◌↔◌, IsTrue};
ghost use Rattle.cluster_msgs.specs.Ranges.{IsRange, SpellsRange};
ghost use Rattle.cluster_msgs.specs.Reading.{below, range_of, range_in};

use byteorder::{ByteOrder, LittleEndian};
use dlm_modes::Block;
use mdc_types::Range;

/// Whether it is a range that a message may hold.
pub(crate) fn is_range(r: Range) -> bool
    ensures { IsTrue result ↔ IsRange r }
{
    (r.lo < r.hi && r.hi <= 131_072) || (r.lo == 0 && r.hi == 0)
}

/// The number in 32 bits. None where it needs more.
pub(crate) fn narrow(n: u64) -> Option<u32>
    ensures { result ≡ below (2 ^ 32) n }
{
    u32::try_from(n).ok()
}

/// The range with these ends. None where one needs more than 32 bits.
#[tactic(auto, unfolding(crate::specs::Reading::range_of))]
pub(crate) fn range_of(lo: u64, hi: u64) -> Option<Range>
    ensures { result ≡ range_of lo hi }
{
    Some(Range {
        lo: narrow(lo)?,
        hi: narrow(hi)?,
    })
}

/// The block of a range: `lo` at byte 0 and `hi` at byte 8, in 64 bits each, and zeros. The range has
/// `lo < hi <= 131072`, or both are 0, which is the empty range.
#[tactic(auto, unfolding(crate::specs::Ranges::spelled_range))]
pub fn write_range(r: Range) -> Block
    requires { IsRange r }
    ensures { SpellsRange result.bytes r }
{
    let mut bytes = [0; 64];
    LittleEndian::write_u64(&mut bytes[0..], r.lo as u64);
    LittleEndian::write_u64(&mut bytes[8..], r.hi as u64);
    Block { bytes }
}

/// The range whose block this is. None where it is no range's.
pub fn read_range(block: &Block) -> Option<Range>
    ensures { result ≡ range_in block.now.bytes }
{
    let lo = LittleEndian::read_u64(&block.bytes[0..]);
    let hi = LittleEndian::read_u64(&block.bytes[8..]);
    let r = range_of(lo, hi)?;
    if spells_range(block, r) {
        Some(r)
    } else {
        None
    }
}

// Whether the block is this range's.
fn spells_range(block: &Block, r: Range) -> bool
    ensures { IsTrue result ↔ SpellsRange block.now.bytes r }
{
    is_range(r) && write_range(r) == *block
}
