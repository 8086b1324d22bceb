ghost use Rattle.std.specs.Prelude.{◌≡◌, ◌<◌, ◌≤◌, ◌-◌, ◌*◌, ◌/◌, ℕ, true, false, not, ◌&&◌, None, Some, IfOk, IfSome};
ghost use Rattle.dlm_modes.specs.First.{first_such};
ghost use Rattle.mdc_types.specs.Bits.{has_bit};
ghost use Rattle.mdc_types.specs.Geometry.{Sizes, chunks_of, pages_of, page_of};
ghost use Rattle.mdc_types.specs.Pages.{leg_without};
ghost use Rattle.slot_pages.specs.Slot.{page_has};
ghost use Rattle.node_bitmaps.specs.Bitmap.{empty, with_set, with_need, entered, exited, written, failed, with_new_legs, found_page, forgotten};
ghost use Rattle.node_bitmaps.specs.Bitmap.{first_set, first_needed, first_unmarked, is_marked, unmarked_target};
ghost use Rattle.node_bitmaps.specs.Opened.{opened};
ghost use Rattle.node_bitmaps.specs.Map.{bitmap_of, chunks_in, pages_in, HasSize};
ghost use Rattle.map_index.specs.Index.{IsFirstLacking, lesser};

use crate::search::{Sought, first_from, has_one, mark_blocks};
use mdc_types::{ChunkNo, Geometry, LegId, PageNo, Sector};
use node_bitmaps::NodeMap;
use slot_pages::page_of;
use std::alloc::{AllocError, Global};
use std::marker::Model;

/// The bitmap of a node, and by block of 128 chunks whether one of them may be in the set or to be
/// copied. Contracts see the map alone.
#[derive(Drop)]
pub struct IndexedMap {
    map: NodeMap,
    sets: Vec<bool>,
    needs: Vec<bool>,
}

impl Model for IndexedMap {
    ghost use Rattle.node_bitmaps.specs.Map.{Map};
    ghost use Rattle.map_index.specs.Index.{IsIndexed};

    ghost Value = { Map };

    ghost view = { λ m. m.map };

    ghost invariant = { λ m. IsIndexed m.map m.sets.items m.needs.items };
}

fn block_of(c: ChunkNo) -> usize
    ensures { result ≡ c / 128 }
{
    (c / 128) as usize
}

// The lesser of two legs, where there is another.
fn lesser(leg: LegId, other: Option<LegId>) -> LegId
    ensures { result ≡ lesser leg other }
{
    match other {
        Some(other) => leg.min(other),
        None => leg,
    }
}

impl IndexedMap {
    /// The map of a slot of an array of this geometry: nothing is set, to be copied, marked or fresh, and
    /// there is no live write. It takes all memory that the map needs.
    pub fn new(alloc: Global, g: &Geometry) -> Result<IndexedMap, AllocError>
        ensures bits { IfOk result (λ m. bitmap_of m ≡ empty) }
        ensures size { IfOk result (λ m. HasSize m (chunks_of g.now) (pages_of g.now)) }
    {
        let blocks = ((g.chunks() + 127) / 128) as usize;
        Ok(IndexedMap {
            map: NodeMap::new(alloc, g)?,
            sets: vec![in alloc; false; blocks]?,
            needs: vec![in alloc; false; blocks]?,
        })
    }

    /// The map itself, for what no index serves.
    pub fn map(&self) -> &NodeMap
        ensures { result.now ≡ self.now }
    {
        &self.map
    }

    /// The first chunk of the set from `c` on.
    pub fn first_set_from(&self, c: ChunkNo) -> Option<ChunkNo>
        ensures { result ≡ first_such (bitmap_of self.now).set c (chunks_in self.now - c) }
    {
        first_from(&self.map, Sought::InSet, &self.sets, c)
    }

    /// The first chunk to be copied from `c` on.
    pub fn first_needed_from(&self, c: ChunkNo) -> Option<ChunkNo>
        ensures { result ≡ first_such (bitmap_of self.now).need c (chunks_in self.now - c) }
    {
        first_from(&self.map, Sought::Needed, &self.needs, c)
    }

    /// The first chunk of the set from `c` on that isn't to be copied.
    pub fn first_settled_from(&self, c: ChunkNo) -> Option<ChunkNo>
        ensures { let bits = bitmap_of self.now in result ≡ first_such
            (λ k. bits.set k && not (bits.need k)) c (chunks_in self.now - c) }
    {
        first_from(&self.map, Sought::Settled, &self.sets, c)
    }

    /// The first chunk of the set.
    pub fn first_set(&self) -> Option<ChunkNo>
        ensures { (g : Sizes) → chunks_in self.now ≡ chunks_of g
            → result ≡ first_set g (bitmap_of self.now) }
    {
        self.first_set_from(0)
    }

    /// The first chunk to be copied.
    pub fn first_needed(&self) -> Option<ChunkNo>
        ensures { (g : Sizes) → chunks_in self.now ≡ chunks_of g
            → result ≡ first_needed g (bitmap_of self.now) }
    {
        self.first_needed_from(0)
    }

    /// The chunk is put into the set.
    pub fn set(&mut self, c: ChunkNo)
        requires { c < chunks_in self.old }
        ensures bits { bitmap_of self.new ≡ with_set (bitmap_of self.old) c true }
        ensures size { HasSize self.new (chunks_in self.old) (pages_in self.old) }
    {
        self.map.set(c);
        self.sets[block_of(c)] = true;
    }

    /// The chunk is taken out of the set.
    pub fn clear(&mut self, c: ChunkNo)
        requires { c < chunks_in self.old }
        ensures bits { bitmap_of self.new ≡ with_set (bitmap_of self.old) c false }
        ensures size { HasSize self.new (chunks_in self.old) (pages_in self.old) }
    {
        self.map.clear(c);
        let b = block_of(c);
        self.sets[b] = has_one(&self.map, Sought::InSet, b);
    }

    /// The chunk is to be copied.
    pub fn need(&mut self, c: ChunkNo)
        requires { c < chunks_in self.old }
        ensures bits { bitmap_of self.new ≡ with_need (bitmap_of self.old) c true }
        ensures size { HasSize self.new (chunks_in self.old) (pages_in self.old) }
    {
        self.map.need(c);
        self.needs[block_of(c)] = true;
    }

    /// The chunk isn't to be copied any more.
    pub fn settled(&mut self, c: ChunkNo)
        requires { c < chunks_in self.old }
        ensures bits { bitmap_of self.new ≡ with_need (bitmap_of self.old) c false }
        ensures size { HasSize self.new (chunks_in self.old) (pages_in self.old) }
    {
        self.map.settled(c);
        let b = block_of(c);
        self.needs[b] = has_one(&self.map, Sought::Needed, b);
    }

    /// The node begins a write in the chunk: it has one live write more there.
    pub fn enter(&mut self, c: ChunkNo)
        requires chunk { c < chunks_in self.old }
        requires room { (bitmap_of self.old).writes c < 16 }
        ensures bits { bitmap_of self.new ≡ entered (bitmap_of self.old) c }
        ensures size { HasSize self.new (chunks_in self.old) (pages_in self.old) }
    {
        self.map.enter(c);
    }

    /// A write of the node in the chunk has ended: it has one live write less there.
    pub fn exit(&mut self, c: ChunkNo)
        requires chunk { c < chunks_in self.old }
        requires live { 0 < (bitmap_of self.old).writes c }
        ensures bits { bitmap_of self.new ≡ exited (bitmap_of self.old) c }
        ensures size { HasSize self.new (chunks_in self.old) (pages_in self.old) }
    {
        self.map.exit(c);
    }

    /// The page was written to the leg, with the set as it is now.
    pub fn page_out(&mut self, p: PageNo, leg: LegId)
        requires page { p < pages_in self.old }
        requires leg { leg < 8 }
        ensures bits { bitmap_of self.new ≡ written (bitmap_of self.old) p leg }
        ensures size { HasSize self.new (chunks_in self.old) (pages_in self.old) }
    {
        self.map.page_out(p, leg);
    }

    /// A write of the page to the leg failed: the old page stands there, or the new one.
    pub fn page_failed(&mut self, p: PageNo, leg: LegId)
        requires page { p < pages_in self.old }
        requires leg { leg < 8 }
        ensures bits { bitmap_of self.new ≡ failed (bitmap_of self.old) p leg }
        ensures size { HasSize self.new (chunks_in self.old) (pages_in self.old) }
    {
        self.map.page_failed(p, leg);
    }

    /// These legs become targets: nothing is known of what stands on them.
    pub fn new_legs(&mut self, legs: u8)
        ensures bits { bitmap_of self.new ≡ with_new_legs (bitmap_of self.old) (has_bit legs) }
        ensures size { HasSize self.new (chunks_in self.old) (pages_in self.old) }
    {
        self.map.new_legs(legs);
    }

    /// Page `p` of a slot was read: its chunks join the set, and are to be copied. Where that changes
    /// the set, the page is fresh no more.
    pub fn found_page(&mut self, p: PageNo, page: &Sector)
        requires { p < pages_in self.old }
        ensures bits { (g : Sizes) → chunks_in self.old ≡ chunks_of g
            → bitmap_of self.new ≡ found_page g (bitmap_of self.old) p (page_has g p page.now.bytes) }
        ensures size { HasSize self.new (chunks_in self.old) (pages_in self.old) }
    {
        self.map.found_page(p, page);
        mark_blocks(&self.map, Sought::InSet, &mut self.sets);
        mark_blocks(&self.map, Sought::Needed, &mut self.needs);
    }

    /// The node is gone: what stands on the legs stays, and all else is empty.
    pub fn forget(&mut self)
        ensures bits { bitmap_of self.new ≡ forgotten (bitmap_of self.old) }
        ensures size { HasSize self.new (chunks_in self.old) (pages_in self.old) }
    {
        self.map.forget();
        mark_blocks(&self.map, Sought::InSet, &mut self.sets);
        mark_blocks(&self.map, Sought::Needed, &mut self.needs);
    }

    /// The node opens as a member: all its chunks are set, or none is, this stands on so many legs, and
    /// all pages are fresh there. Nothing is to be copied, and there is no live write.
    pub fn open_member(&mut self, legs: u8, warm: bool)
        requires { legs ≤ 8 }
        ensures bits { bitmap_of self.new ≡ opened (chunks_in self.old) (pages_in self.old) legs warm }
        ensures size { HasSize self.new (chunks_in self.old) (pages_in self.old) }
    {
        self.map.open_member(legs, warm);
        mark_blocks(&self.map, Sought::InSet, &mut self.sets);
        mark_blocks(&self.map, Sought::Needed, &mut self.needs);
    }

    // The first chunk of the set that has no mark on one of the legs, and the least such leg.
    fn first_lacking(&self, targets: u8) -> Option<(ChunkNo, LegId)>
        ensures none { result ≡ None → (c : ℕ) → c < chunks_in self.now
            → (bitmap_of self.now).set c ≡ true
            → unmarked_target (bitmap_of self.now) (has_bit targets) c ≡ None }
        ensures some { IfSome result (λ found.
            IsFirstLacking (bitmap_of self.now) (has_bit targets) (chunks_in self.now) found.0 found.1) }
    {
        let mut from = 0;
        while let Some(c) = self.first_set_from(from) {
            if let Some(leg) = self.map.unmarked_target(targets, c) {
                return Some((c, leg));
            }
            from = c + 1;
        }
        None
    }

    // The least of the legs where a chunk of the page has no mark, where chunk `c` is the first of all
    // that has none, and `leg` the least such leg of it.
    fn least_lacking(&self, targets: u8, c: ChunkNo, leg: LegId) -> LegId
        requires { IsFirstLacking (bitmap_of self.now) (has_bit targets) (chunks_in self.now) c leg }
        ensures { (g : Sizes) → HasSize self.now (chunks_of g) (pages_of g)
            → Some result ≡ leg_without (is_marked g (bitmap_of self.now)) (has_bit targets) (page_of c) }
    {
        let page = page_of(c);
        let mut least = leg;
        let mut from = c;
        while let Some(k) = self.first_set_from(from) {
            if page_of(k) != page {
                return least;
            }
            least = lesser(least, self.map.unmarked_target(targets, k));
            from = k + 1;
        }
        least
    }

    /// The first page with a chunk of the set that has no mark on one of the legs, and the least such
    /// leg.
    pub fn first_unmarked(&self, targets: u8) -> Option<(PageNo, LegId)>
        ensures { (g : Sizes) → HasSize self.now (chunks_of g) (pages_of g)
            → result ≡ first_unmarked g (bitmap_of self.now) (has_bit targets) }
    {
        let (c, leg) = self.first_lacking(targets)?;
        Some((page_of(c), self.least_lacking(targets, c, leg)))
    }
}
