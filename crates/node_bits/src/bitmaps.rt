ghost use Rattle.std.specs.Prelude.{◌≡◌, ◌<◌, ◌≤◌, ◌-◌, true, false, not, ◌&&◌, length, get_or, IfOk};
ghost use Rattle.dlm_modes.specs.First.{first_such};
ghost use Rattle.dlm_modes.specs.Points.{with_at};
ghost use Rattle.mdc_types.specs.Bits.{has_bit};
ghost use Rattle.mdc_types.specs.Geometry.{chunks_of, pages_of, slot_pages};
ghost use Rattle.slot_pages.specs.Slot.{spelled_page, page_has};
ghost use Rattle.node_bitmaps.specs.Bitmap.{empty, with_set, with_need, entered, exited, written, failed, with_new_legs, found_page, forgotten};
ghost use Rattle.node_bitmaps.specs.Bitmap.{first_set, first_needed, first_needed_of, first_old, old_target, first_unmarked, unmarked_target, unmarked_target_of};
ghost use Rattle.node_bitmaps.specs.Map.{bitmap_of, chunks_in};
ghost use Rattle.node_bits.specs.Bitmaps.{bitmaps_of, map_at, opened, AreNew};

use map_index::IndexedMap;
use mdc_types::{ChunkNo, ChunkSet, Geometry, LegId, NodeId, PageNo, Sector};
use node_bitmaps::NodeMap;
use slot_pages::page_of_flags;
use std::alloc::{AllocError, Global};
use std::marker::Model;

/// The bitmaps of the sixteen slots of an array. Nodes are below 16, and chunks and pages those of the
/// array. Sets of legs have one bit for each leg. Only `new` takes memory.
///
/// Contracts see the sizes and the maps as plain data, and speak of the bitmaps that they stand for.
#[derive(Drop)]
pub struct Bitmaps {
    geometry: Geometry,
    maps: Vec<IndexedMap>,
}

impl Model for Bitmaps {
    ghost use Rattle.node_bits.specs.Bitmaps.{Maps, AreMaps};

    ghost Value = { Maps };

    ghost view = { λ b. record { sizes = b.geometry; maps = b.maps.items } };

    ghost invariant = { λ b. AreMaps b.geometry b.maps.items };
}

// Sixteen empty maps.
fn new_maps(alloc: Global, g: &Geometry) -> Result<Vec<IndexedMap>, AllocError>
    ensures { IfOk result (λ maps. AreNew g.now 16 maps.items) }
{
    let mut maps = Vec::with_capacity(alloc, 16)?;
    for _ in 0..16u8 {
        maps.push(IndexedMap::new(alloc, g)?)?;
    }
    Ok(maps)
}

impl Bitmaps {
    /// Empty bitmaps, for an array of this geometry. Takes all memory that they need.
    pub fn new(alloc: Global, g: &Geometry) -> Result<Bitmaps, AllocError>
        ensures bits { IfOk result (λ b. bitmaps_of b ≡ (λ n. empty)) }
        ensures sizes { IfOk result (λ b. b.sizes ≡ g.now) }
    {
        Ok(Bitmaps {
            geometry: *g,
            maps: new_maps(alloc, g)?,
        })
    }

    /// The map of the node's slot.
    pub fn map(&self, n: NodeId) -> &NodeMap
        requires { n < 16 }
        ensures map { result.now ≡ map_at self.now.maps n }
        ensures chunks { length result.now.set ≡ chunks_of self.now.sizes }
    {
        self.maps[n as usize].map()
    }

    /// Whether the chunk is in the node's set.
    pub fn has(&self, n: NodeId, c: ChunkNo) -> bool
        requires node { n < 16 }
        requires chunk { c < chunks_of self.now.sizes }
        ensures { result ≡ (bitmaps_of self.now n).set c }
    {
        self.maps[n as usize].map().has(c)
    }

    /// Whether the chunk is to be copied.
    pub fn needs(&self, n: NodeId, c: ChunkNo) -> bool
        requires node { n < 16 }
        requires chunk { c < chunks_of self.now.sizes }
        ensures { result ≡ (bitmaps_of self.now n).need c }
    {
        self.maps[n as usize].map().needs(c)
    }

    /// The number of live writes that the node has in the chunk.
    pub fn writes(&self, n: NodeId, c: ChunkNo) -> u16
        requires node { n < 16 }
        requires chunk { c < chunks_of self.now.sizes }
        ensures { result ≡ (bitmaps_of self.now n).writes c }
    {
        self.maps[n as usize].map().writes(c)
    }

    /// The first chunk of the node's set.
    pub fn first_set(&self, n: NodeId) -> Option<ChunkNo>
        requires { n < 16 }
        ensures { result ≡ first_set self.now.sizes (bitmaps_of self.now n) }
    {
        self.maps[n as usize].first_set()
    }

    /// The first chunk from `c` on that is in the node's set and isn't to be copied.
    pub fn first_settled_from(&self, n: NodeId, c: ChunkNo) -> Option<ChunkNo>
        requires { n < 16 }
        ensures { let bits = bitmaps_of self.now n in result ≡ first_such
            (λ k. bits.set k && not (bits.need k)) c (chunks_of self.now.sizes - c) }
    {
        self.maps[n as usize].first_settled_from(c)
    }

    /// The first chunk that is to be copied.
    pub fn first_needed(&self, n: NodeId) -> Option<ChunkNo>
        requires { n < 16 }
        ensures { result ≡ first_needed self.now.sizes (bitmaps_of self.now n) }
    {
        self.maps[n as usize].first_needed()
    }

    /// The first of these chunks that is to be copied.
    pub fn first_needed_of(&self, n: NodeId, chunks: &ChunkSet) -> Option<ChunkNo>
        requires node { n < 16 }
        requires chunks { length chunks.now ≡ chunks_of self.now.sizes }
        ensures { result ≡ first_needed_of self.now.sizes (bitmaps_of self.now n)
            (λ c. get_or chunks.now c false) }
    {
        self.maps[n as usize].map().first_needed_of(chunks)
    }

    /// The least of the legs where a page of the slot isn't fresh.
    pub fn old_target(&self, n: NodeId, targets: u8) -> Option<LegId>
        requires { n < 16 }
        ensures { result ≡ old_target self.now.sizes (bitmaps_of self.now n) (has_bit targets) }
    {
        self.maps[n as usize].map().old_target(targets)
    }

    /// The first page of the slot that isn't fresh on one of the legs, and the least such leg.
    pub fn first_old(&self, n: NodeId, targets: u8) -> Option<(PageNo, LegId)>
        requires { n < 16 }
        ensures { result ≡ first_old self.now.sizes (bitmaps_of self.now n) (has_bit targets) }
    {
        self.maps[n as usize].map().first_old(targets)
    }

    /// The first page with a chunk of the node's set that has no mark on one of the legs, and the
    /// least such leg.
    pub fn first_unmarked(&self, n: NodeId, targets: u8) -> Option<(PageNo, LegId)>
        requires { n < 16 }
        ensures { result ≡ first_unmarked self.now.sizes (bitmaps_of self.now n)
            (has_bit targets) }
    {
        self.maps[n as usize].first_unmarked(targets)
    }

    /// The least of the legs where the chunk has no mark.
    pub fn unmarked_target(&self, n: NodeId, targets: u8, c: ChunkNo) -> Option<LegId>
        requires node { n < 16 }
        requires chunk { c < chunks_of self.now.sizes }
        ensures { result ≡ unmarked_target (bitmaps_of self.now n) (has_bit targets) c }
    {
        self.maps[n as usize].map().unmarked_target(targets, c)
    }

    /// The least of the legs where one of these chunks is in the set without a mark.
    pub fn unmarked_target_of(&self, n: NodeId, targets: u8, chunks: &ChunkSet) -> Option<LegId>
        requires node { n < 16 }
        requires chunks { length chunks.now ≡ chunks_of self.now.sizes }
        ensures { result ≡ unmarked_target_of self.now.sizes (bitmaps_of self.now n)
            (has_bit targets)
            (λ c. get_or chunks.now c false) }
    {
        self.maps[n as usize]
            .map()
            .unmarked_target_of(targets, chunks)
    }

    /// Page `p` of the node's slot, by its set, for an array of this uuid.
    pub fn page(&self, n: NodeId, uuid: &[u8; 16], p: PageNo) -> Sector
        requires node { n < 16 }
        requires page { p < slot_pages self.now.sizes }
        ensures { result ≡ record {
          bytes = spelled_page self.now.sizes uuid.now p
              (bitmaps_of self.now n).set;
        } }
    {
        page_of_flags(&self.geometry, uuid, p, self.maps[n as usize].map())
    }

    /// Makes `into` the set of the chunks to be copied.
    pub fn needed_into(&self, n: NodeId, into: &mut ChunkSet)
        requires node { n < 16 }
        requires chunks { length into.old ≡ chunks_of self.now.sizes }
        ensures chunks { length into.new ≡ length into.old }
        ensures needed { (λ c. get_or into.new c false) ≡ (bitmaps_of self.now n).need }
    {
        self.maps[n as usize].map().needed_into(into);
    }

    /// The chunk is put into the node's set.
    pub fn set(&mut self, n: NodeId, c: ChunkNo)
        requires node { n < 16 }
        requires chunk { c < chunks_of self.old.sizes }
        ensures bits { bitmaps_of self.new
            ≡ with_at (bitmaps_of self.old) n (with_set (bitmaps_of self.old n) c true) }
        ensures sizes { self.new.sizes ≡ self.old.sizes }
    {
        self.maps[n as usize].set(c);
    }

    /// The chunk is taken out of the node's set.
    pub fn clear(&mut self, n: NodeId, c: ChunkNo)
        requires node { n < 16 }
        requires chunk { c < chunks_of self.old.sizes }
        ensures bits { bitmaps_of self.new
            ≡ with_at (bitmaps_of self.old) n (with_set (bitmaps_of self.old n) c false) }
        ensures sizes { self.new.sizes ≡ self.old.sizes }
    {
        self.maps[n as usize].clear(c);
    }

    /// The chunk is to be copied.
    pub fn need(&mut self, n: NodeId, c: ChunkNo)
        requires node { n < 16 }
        requires chunk { c < chunks_of self.old.sizes }
        ensures bits { bitmaps_of self.new
            ≡ with_at (bitmaps_of self.old) n (with_need (bitmaps_of self.old n) c true) }
        ensures sizes { self.new.sizes ≡ self.old.sizes }
    {
        self.maps[n as usize].need(c);
    }

    /// The chunk isn't to be copied any more.
    pub fn settled(&mut self, n: NodeId, c: ChunkNo)
        requires node { n < 16 }
        requires chunk { c < chunks_of self.old.sizes }
        ensures bits { bitmaps_of self.new
            ≡ with_at (bitmaps_of self.old) n (with_need (bitmaps_of self.old n) c false) }
        ensures sizes { self.new.sizes ≡ self.old.sizes }
    {
        self.maps[n as usize].settled(c);
    }

    /// The node begins a write in the chunk: it has one live write more there.
    pub fn enter(&mut self, n: NodeId, c: ChunkNo)
        requires node { n < 16 }
        requires chunk { c < chunks_of self.old.sizes }
        requires room { (bitmaps_of self.old n).writes c < 16 }
        ensures bits { bitmaps_of self.new
            ≡ with_at (bitmaps_of self.old) n (entered (bitmaps_of self.old n) c) }
        ensures sizes { self.new.sizes ≡ self.old.sizes }
    {
        self.maps[n as usize].enter(c);
    }

    /// A write of the node in the chunk has ended: it has one live write less there.
    pub fn exit(&mut self, n: NodeId, c: ChunkNo)
        requires node { n < 16 }
        requires chunk { c < chunks_of self.old.sizes }
        requires live { 0 < (bitmaps_of self.old n).writes c }
        ensures bits { bitmaps_of self.new
            ≡ with_at (bitmaps_of self.old) n (exited (bitmaps_of self.old n) c) }
        ensures sizes { self.new.sizes ≡ self.old.sizes }
    {
        self.maps[n as usize].exit(c);
    }

    /// The page was written to the leg, with the set as it is now.
    pub fn page_out(&mut self, n: NodeId, p: PageNo, leg: LegId)
        requires node { n < 16 }
        requires page { p < pages_of self.old.sizes }
        requires leg { leg < 8 }
        ensures bits { bitmaps_of self.new
            ≡ with_at (bitmaps_of self.old) n (written (bitmaps_of self.old n) p leg) }
        ensures sizes { self.new.sizes ≡ self.old.sizes }
    {
        self.maps[n as usize].page_out(p, leg);
    }

    /// A write of the page to the leg failed: the old page stands there, or the new one.
    pub fn page_failed(&mut self, n: NodeId, p: PageNo, leg: LegId)
        requires node { n < 16 }
        requires page { p < pages_of self.old.sizes }
        requires leg { leg < 8 }
        ensures bits { bitmaps_of self.new
            ≡ with_at (bitmaps_of self.old) n (failed (bitmaps_of self.old n) p leg) }
        ensures sizes { self.new.sizes ≡ self.old.sizes }
    {
        self.maps[n as usize].page_failed(p, leg);
    }

    /// These legs become targets: nothing is known of what stands on them.
    pub fn new_legs(&mut self, n: NodeId, legs: u8)
        requires { n < 16 }
        ensures bits { bitmaps_of self.new
            ≡ with_at (bitmaps_of self.old) n
            (with_new_legs (bitmaps_of self.old n) (has_bit legs)) }
        ensures sizes { self.new.sizes ≡ self.old.sizes }
    {
        self.maps[n as usize].new_legs(legs);
    }

    /// Page `p` of a slot was read: its chunks join the node's set, and are to be copied.
    pub fn found_page(&mut self, n: NodeId, p: PageNo, page: &Sector)
        requires node { n < 16 }
        requires page { p < pages_of self.old.sizes }
        ensures bits { bitmaps_of self.new
            ≡ with_at (bitmaps_of self.old) n
            (found_page self.old.sizes (bitmaps_of self.old n) p
            (page_has self.old.sizes p page.now.bytes)) }
        ensures sizes { self.new.sizes ≡ self.old.sizes }
    {
        self.maps[n as usize].found_page(p, page);
    }

    /// The node is gone: what stands on the legs stays, and all else is empty.
    pub fn forget(&mut self, n: NodeId)
        requires { n < 16 }
        ensures bits { bitmaps_of self.new
            ≡ with_at (bitmaps_of self.old) n (forgotten (bitmaps_of self.old n)) }
        ensures sizes { self.new.sizes ≡ self.old.sizes }
    {
        self.maps[n as usize].forget();
    }

    /// The node opens as a member: all its chunks are set, or none is, this stands on all legs, and all
    /// pages are fresh there. Nothing is to be copied, and there is no live write.
    pub fn open_member(&mut self, n: NodeId, warm: bool)
        requires { n < 16 }
        ensures bits { bitmaps_of self.new
            ≡ with_at (bitmaps_of self.old) n (opened self.old.sizes warm) }
        ensures sizes { self.new.sizes ≡ self.old.sizes }
    {
        let legs = self.geometry.legs();
        self.maps[n as usize].open_member(legs, warm);
    }
}

#[cfg(test)]
mod tests {
    use super::*;
    use std::test::Fail;

    #[test]
    fn nodes_apart(rt: HostRuntime) -> Result<(), Fail> {
        let g = Geometry::new(2, 40, 4)?;
        assert!(rt; 3 < g.chunks() && 0 < g.pages());
        let mut bitmaps = Bitmaps::new(rt.alloc(), &g)?;
        bitmaps.open_member(1, true);
        bitmaps.open_member(2, false);
        bitmaps.set(2, 3);
        bitmaps.page_out(2, 0, 1);
        for (n, first, old) in [
            (0, None, Some(0)),
            (1, Some(0), None),
            (2, Some(3), Some(0)),
        ] {
            assert_eq!(rt; bitmaps.first_set(n), first, "set of node {n}");
            assert_eq!(rt; bitmaps.old_target(n, 0b11), old, "pages of node {n}");
        }
        assert_eq!(rt; bitmaps.unmarked_target(2, 0b11, 3), Some(0));
        assert!(rt; bitmaps.page(2, &[0; 16], 0).bytes[256] == 0x08);
        Ok(())
    }
}
