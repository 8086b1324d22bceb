//! The pages of a node's bitmap slot, as they stand on the legs.
//!
//! After the bitmap superblock of Linux's `drivers/md/md-bitmap.h`, version 5, which is that of a
//! cluster (`Documentation/driver-api/md/md-cluster.rst`). The layout of the bits, one for each chunk,
//! is this project's own.
#![tactic(auto)]

ghost use Rattle.std.specs.Prelude.{◌≡◌, ◌<◌, ◌≤◌, ◌+◌, ◌-◌, ℕ, Bool, false, List, length, get_or, if◌then◌else◌, OnOk, OnErr, IsOk, slice_set, ◌%◌};
ghost use Rattle.std.specs.Result.{result_err};
ghost use Rattle.byteorder.specs.Endian.{little_bytes};
ghost use Rattle.dlm_modes.specs.First.{first_such};
ghost use Rattle.mdc_types.specs.Geometry.{chunks_of, slot_pages, page_of};
ghost use Rattle.mdc_types.specs.Bits.{with_bit};
ghost use Rattle.mdc_types.specs.Ranges.{holds};
ghost use Rattle.mdc_types.specs.Sectors.{IsSector};
ghost use Rattle.slot_pages.specs.Slot.{header_byte, page_start, page_end, byte_of_chunk, chunk_bit, Spells, set_of_page, AddsPage, AddsChunks, spelled_page};
ghost use Rattle.slot_pages.specs.Faults.{differs, spare_from, spare_bit, slot_fault};

mod laws;

use byteorder::{ByteOrder, LittleEndian};
pub use laws::{
    pages_have_their_set, pages_spell_their_bits, sets_are_spelled, sets_have_one_spelling,
};
use mdc_types::{ChunkNo, ChunkSet, Geometry, PageNo, Sector};

const MAGIC: u32 = 0x6d74_6962;

const VERSION: u32 = 5;

// The events number of the array stands in the superblock alone.
const EVENTS: u64 = 0;

/// What is wrong with a page of a slot.
#[derive(Clone, Copy, PartialEq, Eq, Debug)]
pub enum SlotFault {
    /// The first byte of page 0's header that isn't what it has to be, 0 to 255.
    Header(u32),
    /// The first bit past the last chunk that is set, by the chunk that it would be.
    SpareBit(ChunkNo),
}

/// What a page is written of: a set of chunks.
pub trait Flags {
    /// A flag for each chunk of the array.
    ghost flags: { Self → List Bool };

    /// Whether the chunk is in the set.
    fn flag(&self, c: ChunkNo) -> bool
        requires { c < length (flags self.now) }
        ensures { result ≡ get_or (flags self.now) c false };
}

impl Flags for ChunkSet {
    ghost flags = { λ set. set };

    fn flag(&self, c: ChunkNo) -> bool {
        self.has(c)
    }
}

/// The page of a slot that has the chunk's bit.
pub fn page_of(c: ChunkNo) -> PageNo
    ensures { result ≡ page_of c }
{
    if c < 2048 { 0 } else { 1 + (c - 2048) / 4096 }
}

/// The first chunk of a page.
pub fn first_chunk(p: PageNo) -> ChunkNo
    requires { p < 16 }
    ensures { result ≡ page_start p }
{
    (4096 * p).saturating_sub(2048)
}

/// The first chunk past those of a page.
pub fn end_of_page(p: PageNo) -> ChunkNo
    requires { p < 16 }
    ensures { result ≡ page_end p }
{
    4096 * p + 2048
}

fn byte_of(c: ChunkNo) -> usize
    ensures place { result ≡ byte_of_chunk c }
    ensures within { result < 512 }
{
    (256 + c as usize / 8) % 512
}

fn has_chunk(page: &Sector, c: ChunkNo) -> bool
    ensures { result ≡ chunk_bit page.now.bytes c }
{
    (page.bytes[byte_of(c)] >> (c % 8)) & 1 == 1
}

fn put_field(page: &mut [u8], at: usize, field: &[u8])
    requires { at + length field.now ≤ length page.old }
    ensures bytes { (i : ℕ) → get_or page.new i 0 ≡ (if holds at (at + length field.now) i then get_or field.now (i - at) 0 else get_or page.old i 0) }
    ensures fit { (i : ℕ) → get_or page.new i 0 < 256 }
{
    for (k, byte) in field.iter().enumerate() {
        page[at + k] = *byte;
    }
}

// The bytes of a number, the lowest first.
fn bytes_of_u32(n: u32) -> [u8; 4]
    ensures { result ≡ little_bytes 4 n }
{
    let mut bytes = [0; 4];
    LittleEndian::write_u32(&mut bytes, n);
    bytes
}

fn bytes_of_u64(n: u64) -> [u8; 8]
    ensures { result ≡ little_bytes 8 n }
{
    let mut bytes = [0; 8];
    LittleEndian::write_u64(&mut bytes, n);
    bytes
}

fn header(g: &Geometry, uuid: &[u8; 16]) -> Sector
    ensures bytes { (i : ℕ) → get_or result.bytes i 0 ≡ header_byte g.now uuid.now i }
    ensures sector { IsSector result.bytes }
{
    let mut page = Sector::ZERO;
    put_field(&mut page.bytes, 0, &bytes_of_u32(MAGIC));
    put_field(&mut page.bytes, 4, &bytes_of_u32(VERSION));
    put_field(&mut page.bytes, 8, uuid);
    put_field(&mut page.bytes, 24, &bytes_of_u64(EVENTS));
    put_field(&mut page.bytes, 40, &bytes_of_u64(u64::from(g.room())));
    put_field(&mut page.bytes, 52, &bytes_of_u32(512 * g.chunk()));
    put_field(&mut page.bytes, 68, &bytes_of_u32(u32::from(g.nodes())));
    page
}

fn first_wrong_byte(g: &Geometry, uuid: &[u8; 16], page: &Sector) -> Option<u32>
    ensures { result ≡ first_such (differs g.now uuid.now page.now.bytes) 0 256 }
{
    let wanted = header(g, uuid);
    for i in 0..256 {
        if page.bytes[i as usize] != wanted.bytes[i as usize] {
            return Some(i);
        }
    }
    None
}

fn first_spare_bit(g: &Geometry, p: PageNo, page: &Sector) -> Option<ChunkNo>
    requires { p < 16 }
    ensures { result ≡ spare_bit g.now p page.now.bytes }
{
    for c in first_chunk(p).max(g.chunks())..end_of_page(p) {
        if has_chunk(page, c) {
            return Some(c);
        }
    }
    None
}

/// Adds the chunks whose bits are set in page `p`, without a look at the header or at bits past the
/// last chunk.
pub fn page_bits(g: &Geometry, p: PageNo, page: &Sector, into: &mut ChunkSet)
    requires page { p < slot_pages g.now }
    requires chunks { length into.old ≡ chunks_of g.now }
    ensures { AddsPage g.now p page.now.bytes into.old into.new }
{
    for c in first_chunk(p)..end_of_page(p).min(g.chunks()) {
        if has_chunk(page, c) {
            into.add(c);
        }
    }
}

fn first_fault(g: &Geometry, uuid: &[u8; 16], p: PageNo, page: &Sector) -> Option<SlotFault>
    requires { p < 16 }
    ensures { result ≡ slot_fault g.now uuid.now p page.now.bytes }
{
    if p == 0
        && let Some(i) = first_wrong_byte(g, uuid, page)
    {
        return Some(SlotFault::Header(i));
    }
    first_spare_bit(g, p, page).map(SlotFault::SpareBit)
}

/// Reads page `p` of a slot, and adds the chunks whose bits are set in it.
///
/// `Header` where a byte of page 0's header isn't what it has to be, then `SpareBit` where a bit past
/// the last chunk is set. Nothing is added then.
pub fn read_page(
    g: &Geometry,
    uuid: &[u8; 16],
    p: PageNo,
    page: &Sector,
    into: &mut ChunkSet,
) -> Result<(), SlotFault>
    requires page { p < slot_pages g.now }
    requires chunks { length into.old ≡ chunks_of g.now }

    ensures fault { result_err result ≡ slot_fault g.now uuid.now p page.now.bytes }
    ensures added { OnOk result (AddsPage g.now p page.now.bytes into.old into.new) }
    ensures err { OnErr result (into.new ≡ into.old) }

    // What is read is in the grammar, and what is in the grammar is read.
    ensures grammar { OnOk result (Spells g.now uuid.now p (set_of_page g.now p page.now.bytes) page.now.bytes) }
    ensures spelled { (set : List Bool) → Spells g.now uuid.now p set page.now.bytes → IsOk result × AddsChunks p set into.old into.new }
{
    if let Some(fault) = first_fault(g, uuid, p, page) {
        return Err(fault);
    }
    page_bits(g, p, page, into);
    Ok(())
}

fn empty_page(g: &Geometry, uuid: &[u8; 16], p: PageNo) -> Sector
    ensures header { p ≡ 0 → (i : ℕ) → get_or result.bytes i 0 ≡ header_byte g.now uuid.now i }
    ensures bits { (c : ℕ) → page_of c ≡ p → chunk_bit result.bytes c ≡ false }
    ensures sector { IsSector result.bytes }
{
    if p == 0 {
        header(g, uuid)
    } else {
        Sector::ZERO
    }
}

fn set_bit(page: &mut [u8], c: ChunkNo)
    requires { length page.old ≡ 512 }
    ensures bytes { page.new ≡ slice_set page.old (byte_of_chunk c) (with_bit (get_or page.old (byte_of_chunk c) 0) (c % 8)) }
    ensures sector { IsSector page.new }
{
    page[byte_of(c)] |= 1 << (c % 8);
}

/// Page `p` of a slot that has these chunks.
pub fn page_of_flags<F: Flags>(g: &Geometry, uuid: &[u8; 16], p: PageNo, set: &F) -> Sector
    requires page { p < slot_pages g.now }
    requires chunks { length (F.flags set.now) ≡ chunks_of g.now }
    ensures bytes { result.bytes ≡ spelled_page g.now uuid.now p (λ c. get_or (F.flags set.now) c false) }
    ensures grammar { Spells g.now uuid.now p (F.flags set.now) result.bytes }

    // No other page spells the set.
    ensures only { (page : List ℕ) → IsSector page → Spells g.now uuid.now p (F.flags set.now) page → page ≡ result.bytes }
{
    let mut page = empty_page(g, uuid, p);
    for c in first_chunk(p)..end_of_page(p).min(g.chunks()) {
        if set.flag(c) {
            set_bit(&mut page.bytes, c);
        }
    }
    page
}

/// Page `p` of the slot of a node that has this set.
pub fn write_page(g: &Geometry, uuid: &[u8; 16], p: PageNo, set: &ChunkSet) -> Sector
    requires page { p < slot_pages g.now }
    requires chunks { length set.now ≡ chunks_of g.now }
    ensures bytes { result.bytes ≡ spelled_page g.now uuid.now p (λ c. get_or set.now c false) }
    ensures grammar { Spells g.now uuid.now p set.now result.bytes }
{
    page_of_flags(g, uuid, p, set)
}

#[cfg(test)]
mod tests;
