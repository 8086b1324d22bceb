ghost use Rattle.std.specs.Prelude.{◌≡◌, ◌<◌, ℕ, [], false, replicate, length, get_or};
ghost use Rattle.mdc_types.specs.Geometry.{chunks_of, slot_pages};
ghost use Rattle.slot_pages.specs.Slot.{spelled_page};

use mdc_types::{ChunkNo, ChunkSet, Geometry, PageNo, Sector};
use slot_pages::{Flags, page_of_flags, write_page};

// No chunk of an array of so many.
#[derive(Clone, Copy)]
struct NoChunks {
    chunks: u32,
}

impl Flags for NoChunks {
    ghost flags = { λ f. replicate f.chunks false };

    fn flag(&self, c: ChunkNo) -> bool {
        false
    }
}

// A page of a slot without a chunk.
fn empty_page(g: &Geometry, uuid: &[u8; 16], p: PageNo) -> Sector
    requires { p < slot_pages g.now }
    ensures { result.bytes ≡ spelled_page g.now uuid.now p (λ c. false) }
{
    let set = NoChunks { chunks: g.chunks() };
    page_of_flags(g, uuid, p, &set)
}

/// Page `p` of slot `k`, which is empty where there is no set for it.
pub(crate) fn slot_page(
    g: &Geometry,
    uuid: &[u8; 16],
    slots: &[ChunkSet],
    k: usize,
    p: PageNo,
) -> Sector
    requires page { p < slot_pages g.now }
    requires chunks { (n : ℕ) → n < length slots.now
        → length (get_or slots.now n []) ≡ chunks_of g.now }
    ensures { result.bytes ≡ spelled_page g.now uuid.now p
        (λ c. get_or (get_or slots.now k []) c false) }
{
    match slots.get(k) {
        Some(set) => write_page(g, uuid, p, set),
        None => empty_page(g, uuid, p),
    }
}
