ghost use Rattle.std.specs.Prelude.{◌≡◌, ◌<◌, length, IfOk};
ghost use Rattle.mdc_types.specs.Bits.{has_bit};
ghost use Rattle.mdc_types.specs.Geometry.{Sizes, pages_of, chunks_of, slot_pages};
ghost use Rattle.slot_pages.specs.Slot.{page_has};
ghost use Rattle.node_recovery.specs.Progress.{pages_in, chunks_in, HasSize, recovering_of, begun, with_read, with_cleared, with_found, unread, uncleared, unread_leg, uncleared_leg};

use mdc_types::{
    ChunkSet, Geometry, LegId, NodeId, PageNo, Sector, first_page_left, has_leg, leg_left,
    mark_page,
};
use slot_pages::page_bits;
use std::alloc::{AllocError, Global};
use std::marker::Model;

/// What the recovery of a dead node's slot has done so far: the pages of the slot that were read, leg by
/// leg, those that were written clean, and the chunks that were found in the pages read.
///
/// Pages are those of the slot in use, numbered from 0, and sets of legs have one bit for each leg. Only
/// `begin` takes memory.
#[derive(Drop)]
pub struct Recovery {
    slot: NodeId,
    read: Vec<u8>,
    cleared: Vec<u8>,
    found: ChunkSet,
}

impl Model for Recovery {
    ghost use Rattle.std.specs.Prelude.{vec_len};
    ghost use Rattle.node_recovery.specs.Progress.{Progress, IsProgress};

    ghost Value = { Progress };

    ghost view = { λ r. record {
      slot = r.slot;
      read = r.read.items;
      cleared = r.cleared.items;
      found = r.found;
    } };

    ghost invariant = { λ r. IsProgress r.slot (vec_len r.read) (vec_len r.cleared) };
}

impl Recovery {
    /// A recovery of slot `d` of an array of these sizes, with no page read and none cleared.
    pub fn begin(alloc: Global, g: &Geometry, d: NodeId) -> Result<Recovery, AllocError>
        requires { d < 16 }
        ensures begun { IfOk result (λ r. recovering_of r ≡ begun d) }
        ensures size { IfOk result (λ r. HasSize r (pages_of g.now) (chunks_of g.now)) }
    {
        let pages = g.pages() as usize;
        Ok(Recovery {
            slot: d,
            read: vec![in alloc; 0; pages]?,
            cleared: vec![in alloc; 0; pages]?,
            found: ChunkSet::new(alloc, g.chunks())?,
        })
    }

    /// A new recovery, of slot `d` of the same array, in its place.
    pub fn again(&mut self, d: NodeId)
        requires { d < 16 }
        ensures begun { recovering_of self.new ≡ begun d }
        ensures size { HasSize self.new (pages_in self.old) (chunks_in self.old) }
    {
        self.slot = d;
        self.read.fill(0);
        self.cleared.fill(0);
        self.found.clear();
    }

    /// Page `p` of the slot was read from leg `l`.
    pub fn slot_read(&mut self, p: PageNo, l: LegId)
        requires page { p < pages_in self.old }
        requires leg { l < 8 }
        ensures read { recovering_of self.new ≡ with_read (recovering_of self.old) p l }
        ensures size { HasSize self.new (pages_in self.old) (chunks_in self.old) }
    {
        mark_page(&mut self.read, p, l);
    }

    /// Page `p` of the slot was written clean to leg `l`.
    pub fn slot_cleared(&mut self, p: PageNo, l: LegId)
        requires page { p < pages_in self.old }
        requires leg { l < 8 }
        ensures cleared { recovering_of self.new ≡ with_cleared (recovering_of self.old) p l }
        ensures size { HasSize self.new (pages_in self.old) (chunks_in self.old) }
    {
        mark_page(&mut self.cleared, p, l);
    }

    /// The chunks of page `p` were found, which was read so.
    pub fn note_page(&mut self, g: &Geometry, p: PageNo, page: &Sector)
        requires page { p < slot_pages g.now }
        requires chunks { chunks_in self.old ≡ chunks_of g.now }
        ensures found { recovering_of self.new
            ≡ with_found (recovering_of self.old) (page_has g.now p page.now.bytes) }
        ensures size { HasSize self.new (pages_in self.old) (chunks_in self.old) }
    {
        page_bits(g, p, page, &mut self.found);
    }

    /// The first page that wasn't read from each leg of the set, and the least such leg.
    pub fn unread(&self, working: u8) -> Option<(PageNo, LegId)>
        ensures { (g : Sizes) → pages_in self.now ≡ pages_of g
            → result ≡ unread g (recovering_of self.now) (has_bit working) }
    {
        first_page_left(&self.read, working)
    }

    /// The first page that wasn't cleared on each leg of the set, and the least such leg.
    pub fn uncleared(&self, targets: u8) -> Option<(PageNo, LegId)>
        ensures { (g : Sizes) → pages_in self.now ≡ pages_of g
            → result ≡ uncleared g (recovering_of self.now) (has_bit targets) }
    {
        first_page_left(&self.cleared, targets)
    }

    /// The least leg of the set from which a page wasn't read.
    pub fn unread_leg(&self, working: u8) -> Option<LegId>
        ensures { (g : Sizes) → pages_in self.now ≡ pages_of g
            → result ≡ unread_leg g (recovering_of self.now) (has_bit working) }
    {
        leg_left(&self.read, working)
    }

    /// The least leg of the set on which a page wasn't cleared.
    pub fn uncleared_leg(&self, targets: u8) -> Option<LegId>
        ensures { (g : Sizes) → pages_in self.now ≡ pages_of g
            → result ≡ uncleared_leg g (recovering_of self.now) (has_bit targets) }
    {
        leg_left(&self.cleared, targets)
    }

    /// Whether page `p` was read from leg `l`.
    pub fn is_read(&self, p: PageNo, l: LegId) -> bool
        requires page { p < pages_in self.now }
        requires leg { l < 8 }
        ensures { result ≡ (recovering_of self.now).read p l }
    {
        has_leg(self.read[p as usize], l)
    }

    /// Whether page `p` was written clean to leg `l`.
    pub fn is_cleared(&self, p: PageNo, l: LegId) -> bool
        requires page { p < pages_in self.now }
        requires leg { l < 8 }
        ensures { result ≡ (recovering_of self.now).cleared p l }
    {
        has_leg(self.cleared[p as usize], l)
    }

    /// The slot that is recovered, which is its node's number, below 16.
    pub fn slot(&self) -> NodeId
        ensures value { result ≡ self.now.slot }
        ensures range { result < 16 }
    {
        self.slot
    }

    /// The number of pages of the slot that are in use.
    pub fn pages(&self) -> u32
        ensures value { result ≡ pages_in self.now }
        ensures same { length self.now.cleared ≡ pages_in self.now }
    {
        self.read.len() as u32
    }

    /// The chunks that were found in the pages read.
    pub fn found(&self) -> &ChunkSet
        ensures { result.now ≡ self.now.found }
    {
        &self.found
    }
}

#[cfg(test)]
mod tests {
    use super::*;
    use std::process::Abort;
    use std::test::Fail;

    #[derive(Clone, Copy)]
    enum Call {
        Begins,
        Read(PageNo, LegId),
        Cleared(PageNo, LegId),
        Again(NodeId),
    }

    fn make(rt: &impl Abort, recovery: &mut Recovery, c: Call) {
        match c {
            Call::Begins => {}
            Call::Read(p, l) => {
                assert!(rt; p < recovery.pages() && l < 8);
                recovery.slot_read(p, l);
            }
            Call::Cleared(p, l) => {
                assert!(rt; p < recovery.pages() && l < 8);
                recovery.slot_cleared(p, l);
            }
            Call::Again(d) => {
                assert!(rt; d < 16);
                recovery.again(d);
            }
        }
    }

    #[test]
    fn pages_in_turn(rt: HostRuntime) -> Result<(), Fail> {
        // 4,096 chunks have two pages.
        let g = Geometry::new(3, 4096, 1)?;
        let mut recovery = Recovery::begin(rt.alloc(), &g, 2)?;
        // Chunk 2051 is the fourth of page 1.
        let mut page = Sector::ZERO;
        page.bytes[0] = 0x08;
        assert!(rt; 1 < g.slot_pages());
        recovery.note_page(&g, 1, &page);
        assert_eq!(rt; recovery.found().first_from(0), Some(2051));
        assert_eq!(rt; recovery.pages(), 2);
        // A call, and then what is left to read from legs 0 and 2, and to clear on legs 1 and 2.
        for (c, unread, unread_leg, uncleared, uncleared_leg) in [
            (Call::Begins, Some((0, 0)), Some(0), Some((0, 1)), Some(1)),
            (
                Call::Read(0, 0),
                Some((0, 2)),
                Some(0),
                Some((0, 1)),
                Some(1),
            ),
            (
                Call::Read(1, 0),
                Some((0, 2)),
                Some(2),
                Some((0, 1)),
                Some(1),
            ),
            (
                Call::Read(0, 2),
                Some((1, 2)),
                Some(2),
                Some((0, 1)),
                Some(1),
            ),
            (Call::Read(1, 2), None, None, Some((0, 1)), Some(1)),
            (Call::Cleared(0, 1), None, None, Some((0, 2)), Some(1)),
            (Call::Cleared(0, 2), None, None, Some((1, 1)), Some(1)),
            (Call::Cleared(1, 1), None, None, Some((1, 2)), Some(2)),
            (Call::Cleared(1, 2), None, None, None, None),
            (Call::Again(5), Some((0, 0)), Some(0), Some((0, 1)), Some(1)),
        ] {
            make(&rt, &mut recovery, c);
            assert_eq!(rt; recovery.unread(0b101), unread);
            assert_eq!(rt; recovery.unread_leg(0b101), unread_leg);
            assert_eq!(rt; recovery.uncleared(0b110), uncleared);
            assert_eq!(rt; recovery.uncleared_leg(0b110), uncleared_leg);
        }
        assert_eq!(rt; recovery.slot(), 5);
        assert_eq!(rt; recovery.found().first_from(0), None);
        Ok(())
    }
}
