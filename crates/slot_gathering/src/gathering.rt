ghost use Rattle.std.specs.Prelude.{◌≡◌, ◌<◌, true, length, IfOk, IfSome, is_some};
ghost use Rattle.mdc_types.specs.Geometry.{chunks_of, nodes_of, pages_of, slot_pages};
ghost use Rattle.slot_pages.specs.Slot.{page_has};
ghost use Rattle.slot_gathering.specs.Gatherings.{none_gathered, page_to_gather, due_page, gathered_page};
ghost use Rattle.slot_gathering.specs.Kept.{gathering_of};

use mdc_types::{ChunkSet, Geometry, NodeId, PageNo, Sector};
use slot_pages::page_bits;
use std::alloc::{AllocError, Global};
use std::marker::Model;

/// The chunks gathered so far, and how many pages they were gathered from.
///
/// The pages in use of all slots come in turn: slots rise, and in each slot pages rise. Only `new`
/// takes memory.
#[derive(Drop)]
pub struct Gathering {
    geometry: Geometry,
    next: u32,
    gathered: ChunkSet,
}

impl Model for Gathering {
    ghost use Rattle.std.specs.Prelude.{length};
    ghost use Rattle.slot_gathering.specs.Kept.{Kept, IsKept};

    ghost Value = { Kept };

    ghost view = { λ a. record { sizes = a.geometry; next = a.next; gathered = a.gathered } };

    ghost invariant = { λ a. IsKept a.geometry a.next (length a.gathered) };
}

impl Gathering {
    /// A gathering of an array of these sizes, with no page gathered.
    pub fn new(alloc: Global, g: &Geometry) -> Result<Gathering, AllocError>
        ensures nothing { IfOk result (λ a. gathering_of a ≡ none_gathered) }
        ensures sizes { IfOk result (λ a. a.sizes ≡ g.now) }
    {
        Ok(Gathering {
            geometry: *g,
            next: 0,
            gathered: ChunkSet::new(alloc, g.chunks())?,
        })
    }

    /// Begins again, with no page gathered.
    pub fn restart(&mut self)
        ensures nothing { gathering_of self.new ≡ none_gathered }
        ensures sizes { self.new.sizes ≡ self.old.sizes }
    {
        self.next = 0;
        self.gathered.clear();
    }

    /// The slot and the page that are due. None where all pages are gathered.
    pub fn next(&self) -> Option<(NodeId, PageNo)>
        ensures due { result ≡ page_to_gather self.now.sizes (gathering_of self.now) }
        ensures place { IfSome result (λ (n, p). (n < nodes_of self.now.sizes)
            × (p < pages_of self.now.sizes) × (p < slot_pages self.now.sizes)) }
    {
        let pages = self.geometry.pages();
        if self.next < self.geometry.nodes() as u32 * pages {
            Some(((self.next / pages) as NodeId, self.next % pages))
        } else {
            None
        }
    }

    /// The page that is due was read: its chunks are gathered too, and the next page is due.
    pub fn add(&mut self, page: &Sector)
        requires { is_some (page_to_gather self.old.sizes (gathering_of self.old)) ≡ true }
        ensures chunks { let due = due_page self.old.sizes (gathering_of self.old) in gathering_of self.new
            ≡ gathered_page (gathering_of self.old) (page_has self.old.sizes due page.now.bytes) }
        ensures sizes { self.new.sizes ≡ self.old.sizes }
    {
        let p = self.next % self.geometry.pages();
        page_bits(&self.geometry, p, page, &mut self.gathered);
        self.next += 1;
    }

    /// The chunks gathered so far.
    pub fn gathered(&self) -> &ChunkSet
        ensures value { result.now ≡ self.now.gathered }
        ensures chunks { length result.now ≡ chunks_of self.now.sizes }
    {
        &self.gathered
    }
}

#[cfg(test)]
mod tests {
    use super::*;
    use std::test::Fail;

    #[test]
    fn pages_in_turn(rt: HostRuntime) -> Result<(), Fail> {
        // 4,096 chunks have two pages, and eight slots sixteen.
        let g = Geometry::new(3, 4096, 1)?;
        let mut gathering = Gathering::new(rt.alloc(), &g)?;
        // Byte 0 has chunks 2048 to 2055 in page 1, and is of the header in page 0.
        let mut page = Sector::ZERO;
        page.bytes[0] = 0x08;
        for i in 0..16u8 {
            assert_eq!(rt; gathering.next(), Some((i / 2, u32::from(i % 2))));
            let first = if i < 2 { None } else { Some(2051) };
            assert_eq!(rt; gathering.gathered().first_from(0), first, "before {i}");
            if gathering.next().is_some() {
                gathering.add(&page);
            }
        }
        assert_eq!(rt; gathering.next(), None);
        gathering.restart();
        assert_eq!(rt; gathering.next(), Some((0, 0)));
        assert_eq!(rt; gathering.gathered().first_from(0), None);
        Ok(())
    }
}
