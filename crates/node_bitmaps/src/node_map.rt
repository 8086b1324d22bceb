ghost use Rattle.std.specs.Prelude.{◌≡◌, ◌<◌, ◌≤◌, ◌+◌, ◌-◌, ℕ, List, true, false, length, get_or, IfOk};
ghost use Rattle.dlm_modes.specs.First.{first_such};
ghost use Rattle.mdc_types.specs.Bits.{has_bit};
ghost use Rattle.mdc_types.specs.Geometry.{Sizes, chunks_of, pages_of, slot_pages};
ghost use Rattle.mdc_types.specs.Sectors.{IsSector};
ghost use Rattle.slot_pages.specs.Slot.{Spells, page_has};
ghost use Rattle.node_bitmaps.specs.Bitmap.{empty, with_set, with_need, entered, exited, written, failed, with_new_leg, with_new_legs, found_page, forgotten};
ghost use Rattle.node_bitmaps.specs.Bitmap.{first_set, first_needed, first_needed_of, first_old, old_target, first_unmarked, unmarked_target, unmarked_target_of};
ghost use Rattle.node_bitmaps.specs.Opened.{opened};
ghost use Rattle.node_bitmaps.specs.Map.{bitmap_of, chunks_in, pages_in, HasSize};

use crate::cells::Cell;
use crate::{cells, marks};
use mdc_types::{
    ChunkNo, ChunkSet, Geometry, LegId, PageNo, Sector, first_page_left, has_leg, leg_left,
    with_leg,
};
use slot_pages::{Flags, page_of_flags};
use std::alloc::{AllocError, Global};
use std::marker::Model;

/// The bitmap of a node.
#[derive(Drop)]
pub struct NodeMap {
    cells: Vec<Cell>,
    fresh: Vec<u8>,
}

impl Model for NodeMap {
    ghost use Rattle.node_bitmaps.specs.Map.{Map};
    ghost use Rattle.node_bitmaps.specs.Cells.{map_of, IsWhole};

    ghost Value = { Map };

    ghost view = { λ m. map_of m.cells.items m.fresh.items };

    ghost invariant = { λ m. IsWhole m.cells.items m.fresh.items };
}

impl NodeMap {
    /// The map of a slot of an array of this geometry: nothing is set, to be copied, marked or fresh, and
    /// there is no live write. It takes all memory that the map needs.
    pub fn new(alloc: Global, g: &Geometry) -> Result<NodeMap, AllocError>
        ensures bits { IfOk result (λ m. bitmap_of m ≡ empty) }
        ensures size { IfOk result (λ m. HasSize m (chunks_of g.now) (pages_of g.now)) }
    {
        Ok(NodeMap {
            cells: vec![in alloc; Cell::NONE; g.chunks() as usize]?,
            fresh: vec![in alloc; 0; g.pages() as usize]?,
        })
    }

    /// The number of chunks of the array.
    pub fn chunks(&self) -> u32
        ensures { result ≡ chunks_in self.now }
    {
        self.cells.len() as u32
    }

    /// The number of pages of the slot that are in use.
    pub fn pages(&self) -> u32
        ensures { result ≡ pages_in self.now }
    {
        self.fresh.len() as u32
    }

    /// Whether the chunk is in the set.
    pub fn has(&self, c: ChunkNo) -> bool
        requires { c < chunks_in self.now }
        ensures { result ≡ (bitmap_of self.now).set c }
    {
        self.cells[c as usize].set
    }

    /// Whether the chunk is to be copied.
    pub fn needs(&self, c: ChunkNo) -> bool
        requires { c < chunks_in self.now }
        ensures { result ≡ (bitmap_of self.now).need c }
    {
        self.cells[c as usize].needed
    }

    /// The number of live writes that the node has in the chunk, at most 16.
    pub fn writes(&self, c: ChunkNo) -> u16
        requires { c < chunks_in self.now }
        ensures count { result ≡ (bitmap_of self.now).writes c }
        ensures most { result ≤ 16 }
    {
        self.cells[c as usize].writes
    }

    /// Whether the chunk's bit surely stands on the leg.
    pub fn on_leg(&self, c: ChunkNo, leg: LegId) -> bool
        requires chunk { c < chunks_in self.now }
        requires leg { leg < 8 }
        ensures { result ≡ (bitmap_of self.now).marks c leg }
    {
        has_leg(self.cells[c as usize].marks, leg)
    }

    /// Whether the page is fresh on the leg: its last write there succeeded, and the set hasn't changed
    /// in it since.
    pub fn fresh(&self, p: PageNo, leg: LegId) -> bool
        requires page { p < pages_in self.now }
        requires leg { leg < 8 }
        ensures { result ≡ (bitmap_of self.now).fresh p leg }
    {
        has_leg(self.fresh[p as usize], leg)
    }

    /// The first chunk of the set from `c` on.
    pub fn first_set_from(&self, c: ChunkNo) -> Option<ChunkNo>
        ensures { result ≡ first_such (bitmap_of self.now).set c (chunks_in self.now - c) }
    {
        cells::first_set(&self.cells, c)
    }

    /// The first chunk to be copied from `c` on.
    pub fn first_needed_from(&self, c: ChunkNo) -> Option<ChunkNo>
        ensures { result ≡ first_such (bitmap_of self.now).need c (chunks_in self.now - c) }
    {
        cells::first_needed(&self.cells, c)
    }

    /// The first chunk of the set.
    pub fn first_set(&self) -> Option<ChunkNo>
        ensures { (g : Sizes) → chunks_in self.now ≡ chunks_of g
            → result ≡ first_set g (bitmap_of self.now) }
    {
        self.first_set_from(0)
    }

    /// The first chunk to be copied.
    pub fn first_needed(&self) -> Option<ChunkNo>
        ensures { (g : Sizes) → chunks_in self.now ≡ chunks_of g
            → result ≡ first_needed g (bitmap_of self.now) }
    {
        self.first_needed_from(0)
    }

    /// The first of these chunks that is to be copied.
    pub fn first_needed_of(&self, chunks: &ChunkSet) -> Option<ChunkNo>
        requires { length chunks.now ≡ chunks_in self.now }
        ensures { (g : Sizes) → chunks_in self.now ≡ chunks_of g
            → result ≡ first_needed_of g (bitmap_of self.now) (λ c. get_or chunks.now c false) }
    {
        cells::first_needed_of(&self.cells, chunks)
    }

    /// The first page that isn't fresh on one of the legs, and the least such leg.
    pub fn first_old(&self, targets: u8) -> Option<(PageNo, LegId)>
        ensures { (g : Sizes) → pages_in self.now ≡ pages_of g
            → result ≡ first_old g (bitmap_of self.now) (has_bit targets) }
    {
        first_page_left(&self.fresh, targets)
    }

    /// The least of the legs where a page isn't fresh.
    pub fn old_target(&self, targets: u8) -> Option<LegId>
        ensures { (g : Sizes) → pages_in self.now ≡ pages_of g
            → result ≡ old_target g (bitmap_of self.now) (has_bit targets) }
    {
        leg_left(&self.fresh, targets)
    }

    /// The first page with a chunk of the set that has no mark on one of the legs, and the least such
    /// leg.
    pub fn first_unmarked(&self, targets: u8) -> Option<(PageNo, LegId)>
        ensures { (g : Sizes) → HasSize self.now (chunks_of g) (pages_of g)
            → result ≡ first_unmarked g (bitmap_of self.now) (has_bit targets) }
    {
        marks::first_unmarked(&self.cells, self.pages(), targets)
    }

    /// The least of the legs where the chunk has no mark.
    pub fn unmarked_target(&self, targets: u8, c: ChunkNo) -> Option<LegId>
        requires { c < chunks_in self.now }
        ensures { result ≡ unmarked_target (bitmap_of self.now) (has_bit targets) c }
    {
        marks::unmarked_target(self.cells[c as usize], targets)
    }

    /// The least of the legs where one of these chunks is in the set without a mark.
    pub fn unmarked_target_of(&self, targets: u8, chunks: &ChunkSet) -> Option<LegId>
        requires { length chunks.now ≡ chunks_in self.now }
        ensures { (g : Sizes) → chunks_in self.now ≡ chunks_of g
            → result ≡ unmarked_target_of g (bitmap_of self.now) (has_bit targets)
            (λ c. get_or chunks.now c false) }
    {
        marks::unmarked_target_of(&self.cells, chunks, targets)
    }

    /// Makes `into` the set of the node.
    pub fn set_into(&self, into: &mut ChunkSet)
        requires { length into.old ≡ chunks_in self.now }
        ensures { into.new ≡ self.now.set }
    {
        cells::set_into(&self.cells, into);
    }

    /// Makes `into` the set of the chunks to be copied.
    pub fn needed_into(&self, into: &mut ChunkSet)
        requires { length into.old ≡ chunks_in self.now }
        ensures { into.new ≡ self.now.need }
    {
        cells::needed_into(&self.cells, into);
    }

    /// The chunk is put into the set.
    pub fn set(&mut self, c: ChunkNo)
        requires { c < chunks_in self.old }
        ensures bits { bitmap_of self.new ≡ with_set (bitmap_of self.old) c true }
        ensures size { HasSize self.new (chunks_in self.old) (pages_in self.old) }
    {
        cells::put(&mut self.cells, &mut self.fresh, c, true);
    }

    /// The chunk is taken out of the set.
    pub fn clear(&mut self, c: ChunkNo)
        requires { c < chunks_in self.old }
        ensures bits { bitmap_of self.new ≡ with_set (bitmap_of self.old) c false }
        ensures size { HasSize self.new (chunks_in self.old) (pages_in self.old) }
    {
        cells::put(&mut self.cells, &mut self.fresh, c, false);
    }

    /// The chunk is to be copied.
    pub fn need(&mut self, c: ChunkNo)
        requires { c < chunks_in self.old }
        ensures bits { bitmap_of self.new ≡ with_need (bitmap_of self.old) c true }
        ensures size { HasSize self.new (chunks_in self.old) (pages_in self.old) }
    {
        cells::set_need(&mut self.cells, c, true);
    }

    /// The chunk isn't to be copied any more.
    pub fn settled(&mut self, c: ChunkNo)
        requires { c < chunks_in self.old }
        ensures bits { bitmap_of self.new ≡ with_need (bitmap_of self.old) c false }
        ensures size { HasSize self.new (chunks_in self.old) (pages_in self.old) }
    {
        cells::set_need(&mut self.cells, c, false);
    }

    /// The node begins a write in the chunk: it has one live write more there.
    pub fn enter(&mut self, c: ChunkNo)
        requires chunk { c < chunks_in self.old }
        requires room { (bitmap_of self.old).writes c < 16 }
        ensures bits { bitmap_of self.new ≡ entered (bitmap_of self.old) c }
        ensures size { HasSize self.new (chunks_in self.old) (pages_in self.old) }
    {
        cells::enter(&mut self.cells, c);
    }

    /// A write of the node in the chunk has ended: it has one live write less there.
    pub fn exit(&mut self, c: ChunkNo)
        requires chunk { c < chunks_in self.old }
        requires live { 0 < (bitmap_of self.old).writes c }
        ensures bits { bitmap_of self.new ≡ exited (bitmap_of self.old) c }
        ensures size { HasSize self.new (chunks_in self.old) (pages_in self.old) }
    {
        cells::exit(&mut self.cells, c);
    }

    /// The page was written to the leg, with the set as it is now.
    pub fn page_out(&mut self, p: PageNo, leg: LegId)
        requires page { p < pages_in self.old }
        requires leg { leg < 8 }
        ensures bits { bitmap_of self.new ≡ written (bitmap_of self.old) p leg }
        ensures size { HasSize self.new (chunks_in self.old) (pages_in self.old) }
    {
        cells::page_out(&mut self.cells, &mut self.fresh, p, leg);
    }

    /// A write of the page to the leg failed: the old page stands there, or the new one.
    pub fn page_failed(&mut self, p: PageNo, leg: LegId)
        requires page { p < pages_in self.old }
        requires leg { leg < 8 }
        ensures bits { bitmap_of self.new ≡ failed (bitmap_of self.old) p leg }
        ensures size { HasSize self.new (chunks_in self.old) (pages_in self.old) }
    {
        cells::page_failed(&mut self.cells, &mut self.fresh, p, leg);
    }

    /// The leg becomes a target: nothing is known of what stands on it.
    pub fn new_leg(&mut self, leg: LegId)
        requires { leg < 8 }
        ensures bits { bitmap_of self.new ≡ with_new_leg (bitmap_of self.old) leg }
        ensures size { HasSize self.new (chunks_in self.old) (pages_in self.old) }
    {
        self.new_legs(with_leg(0, leg));
    }

    /// These legs become targets: nothing is known of what stands on them.
    pub fn new_legs(&mut self, legs: u8)
        ensures bits { bitmap_of self.new ≡ with_new_legs (bitmap_of self.old) (has_bit legs) }
        ensures size { HasSize self.new (chunks_in self.old) (pages_in self.old) }
    {
        cells::new_legs(&mut self.cells, &mut self.fresh, legs);
    }

    /// Page `p` of a slot was read: its chunks join the set, and are to be copied. Where that changes
    /// the set, the page is fresh no more.
    pub fn found_page(&mut self, p: PageNo, page: &Sector)
        requires { p < pages_in self.old }
        ensures bits { (g : Sizes) → chunks_in self.old ≡ chunks_of g
            → bitmap_of self.new ≡ found_page g (bitmap_of self.old) p (page_has g p page.now.bytes) }
        ensures size { HasSize self.new (chunks_in self.old) (pages_in self.old) }
    {
        cells::found_page(&mut self.cells, &mut self.fresh, p, page);
    }

    /// The node is gone: what stands on the legs stays, and all else is empty.
    pub fn forget(&mut self)
        ensures bits { bitmap_of self.new ≡ forgotten (bitmap_of self.old) }
        ensures size { HasSize self.new (chunks_in self.old) (pages_in self.old) }
    {
        cells::forget_all(&mut self.cells, &mut self.fresh);
    }

    /// The node opens as a member: all its chunks are set, or none is, this stands on so many legs, and
    /// all pages are fresh there. Nothing is to be copied, and there is no live write.
    pub fn open_member(&mut self, legs: u8, warm: bool)
        requires { legs ≤ 8 }
        ensures bits { bitmap_of self.new ≡ opened (chunks_in self.old) (pages_in self.old) legs warm }
        ensures size { HasSize self.new (chunks_in self.old) (pages_in self.old) }
    {
        cells::open_member(&mut self.cells, &mut self.fresh, legs, warm);
    }

    /// Page `p` of the node's slot, by its set: what `write_page` gives of it.
    pub fn page(&self, g: &Geometry, uuid: &[u8; 16], p: PageNo) -> Sector
        requires page { p < slot_pages g.now }
        requires chunks { chunks_in self.now ≡ chunks_of g.now }
        ensures grammar { Spells g.now uuid.now p self.now.set result.bytes }

        // No other page spells the set.
        ensures only { (page : List ℕ) → IsSector page → Spells g.now uuid.now p self.now.set page → page ≡ result.bytes }
    {
        page_of_flags(g, uuid, p, self)
    }
}

impl Flags for NodeMap {
    ghost flags = { λ m. m.set };

    fn flag(&self, c: ChunkNo) -> bool {
        self.has(c)
    }
}
