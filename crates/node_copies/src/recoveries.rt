ghost use Rattle.std.specs.Prelude.{◌≡◌, ◌<◌, ℕ, Bool, false, length, get_or, is_some, Option, Some, None, option_map, IfOk, IfSome};
ghost use Rattle.dlm_modes.specs.Points.{with_at};
ghost use Rattle.mdc_types.specs.Bits.{has_bit};
ghost use Rattle.mdc_types.specs.Geometry.{chunks_of, pages_of, slot_pages};
ghost use Rattle.slot_pages.specs.Slot.{page_has};
ghost use Rattle.node_recovery.specs.Progress.{Recovering, begun, with_read, with_found, with_cleared};
ghost use Rattle.cluster_model.specs.Phases.{recovery_word};
ghost use Rattle.node_copies.specs.Recoveries.{recoveries_of, recovery_of, first_unread, first_uncleared, page_unread, page_uncleared, IsNew, no_place};
ghost use Rattle.node_copies.specs.Places.{AreAll};
ghost use Rattle.node_copies.specs.declared.places.NodeRecovery.{NodeRecovery};

use crate::node_rec;
use crate::places::NodeRecovery;
use mdc_types::{ChunkSet, Geometry, LegId, NodeId, PageNo, Sector, Word};
use node_recovery::Recovery;
use std::alloc::{AllocError, Global};
use std::marker::Model;

/// The recoveries of all nodes, at most one for each. Nodes are below 16. Sets of legs have one bit for
/// each leg. Only `new` takes memory.
///
/// Contracts see the sizes and the places as plain data, and speak of the recoveries that they stand for.
#[derive(Drop)]
pub struct Recoveries {
    geometry: Geometry,
    places: Vec<NodeRecovery>,
}

impl Model for Recoveries {
    ghost use Rattle.node_copies.specs.Recoveries.{Progresses, IsOf, no_place};
    ghost use Rattle.node_copies.specs.Places.{AreAll};
    ghost use Rattle.node_copies.specs.declared.places.NodeRecovery.{NodeRecovery};

    ghost Value = { Progresses };

    ghost view = { λ t. record { sizes = t.geometry; places = t.places.items } };

    ghost invariant = { λ t. AreAll NodeRecovery (IsOf t.geometry) no_place 16 t.places.items };
}

// A node that recovers nothing.
fn new_place(alloc: Global, g: &Geometry) -> Result<NodeRecovery, AllocError>
    ensures { IfOk result (λ x. IsNew g.now x) }
{
    Ok(NodeRecovery {
        begun: false,
        recovery: Recovery::begin(alloc, g, 0)?,
    })
}

fn new_places(alloc: Global, g: &Geometry) -> Result<Vec<NodeRecovery>, AllocError>
    ensures { IfOk result (λ xs. AreAll NodeRecovery (IsNew g.now) no_place 16 xs.items) }
{
    let mut places = Vec::with_capacity(alloc, 16)?;
    for _ in 0..16u8 {
        places.push(new_place(alloc, g)?)?;
    }
    Ok(places)
}

impl Recoveries {
    /// Nothing is recovered, on an array of this geometry. Takes all memory that recoveries need.
    pub fn new(alloc: Global, g: &Geometry) -> Result<Recoveries, AllocError>
        ensures recoveries { IfOk result (λ t. recoveries_of t ≡ (λ n. None)) }
        ensures sizes { IfOk result (λ t. t.sizes ≡ g.now) }
    {
        Ok(Recoveries {
            geometry: *g,
            places: new_places(alloc, g)?,
        })
    }

    /// The word of the node's recovery: nothing, or open.
    pub fn word(&self, n: NodeId) -> Word
        requires { n < 16 }
        ensures { result ≡ recovery_word (recoveries_of self.now n) }
    {
        if self.places[n as usize].begun {
            Word::Open
        } else {
            Word::Nothing
        }
    }

    /// The slot that the node recovers.
    pub fn slot(&self, n: NodeId) -> Option<NodeId>
        requires { n < 16 }
        ensures value { result ≡ option_map (λ r. r.slot) (recoveries_of self.now n) }
        ensures range { IfSome result (λ d. d < 16) }
    {
        node_rec::slot_of(&self.places[n as usize])
    }

    /// The least leg of the set from which a page wasn't read. None where there is no recovery.
    pub fn unread_leg(&self, n: NodeId, working: u8) -> Option<LegId>
        requires { n < 16 }
        ensures { result ≡ first_unread self.now.sizes (recoveries_of self.now n)
            (has_bit working) }
    {
        node_rec::first_unread(&self.geometry, &self.places[n as usize], working)
    }

    /// The least leg of the set on which a page wasn't cleared. None where there is no recovery.
    pub fn uncleared_leg(&self, n: NodeId, targets: u8) -> Option<LegId>
        requires { n < 16 }
        ensures { result ≡ first_uncleared self.now.sizes (recoveries_of self.now n)
            (has_bit targets) }
    {
        node_rec::first_uncleared(&self.geometry, &self.places[n as usize], targets)
    }

    /// The first page that wasn't read from each leg of the set, and the least such leg. None where
    /// there is no recovery.
    pub fn unread(&self, n: NodeId, working: u8) -> Option<(PageNo, LegId)>
        requires { n < 16 }
        ensures { result ≡ page_unread self.now.sizes (recoveries_of self.now n) (has_bit working) }
    {
        node_rec::unread(&self.geometry, &self.places[n as usize], working)
    }

    /// The first page that wasn't cleared on each leg of the set, and the least such leg. None where
    /// there is no recovery.
    pub fn uncleared(&self, n: NodeId, targets: u8) -> Option<(PageNo, LegId)>
        requires { n < 16 }
        ensures { result ≡ page_uncleared self.now.sizes (recoveries_of self.now n)
            (has_bit targets) }
    {
        node_rec::uncleared(&self.geometry, &self.places[n as usize], targets)
    }

    /// The chunks that the node's recovery found. They mean nothing where there is no recovery.
    pub fn found(&self, n: NodeId) -> &ChunkSet
        requires { n < 16 }
        ensures found { (r : Recovering) → recoveries_of self.now n ≡ Some r
            → ◌≡◌ {A = ℕ → Bool} (λ c. get_or result.now c false) r.found }
        ensures chunks { length result.now ≡ chunks_of self.now.sizes }
    {
        self.places[n as usize].recovery.found()
    }

    /// The node recovers slot `d`, and has done nothing yet.
    pub fn begin(&mut self, n: NodeId, d: NodeId)
        requires node { n < 16 }
        requires slot { d < 16 }
        ensures recovery { recoveries_of self.new
            ≡ with_at (recoveries_of self.old) n (Some (begun d)) }
        ensures sizes { self.new.sizes ≡ self.old.sizes }
    {
        node_rec::begin(&mut self.places[n as usize], d);
    }

    /// The node recovers nothing any more.
    pub fn close(&mut self, n: NodeId)
        requires { n < 16 }
        ensures recovery { recoveries_of self.new ≡ with_at (recoveries_of self.old) n None }
        ensures sizes { self.new.sizes ≡ self.old.sizes }
    {
        self.places[n as usize].begun = false;
    }

    /// Page `p` of the slot was read from the leg, and its chunks are found. Nothing changes where there
    /// is no recovery.
    pub fn note_page(&mut self, n: NodeId, p: PageNo, page: &Sector, l: LegId)
        requires node { n < 16 }
        requires page { p < pages_of self.old.sizes }
        requires slot { p < slot_pages self.old.sizes }
        requires leg { l < 8 }
        ensures recovery { recoveries_of self.new ≡ with_at (recoveries_of self.old) n
            (option_map (λ r. with_found (with_read r p l)
            (page_has self.old.sizes p page.now.bytes)) (recoveries_of self.old n)) }
        ensures sizes { self.new.sizes ≡ self.old.sizes }
    {
        node_rec::note_page(&self.geometry, &mut self.places[n as usize], p, page, l);
    }

    /// Page `p` of the slot was written clean to the leg. Nothing changes where there is no recovery.
    pub fn slot_cleared(&mut self, n: NodeId, p: PageNo, l: LegId)
        requires node { n < 16 }
        requires page { p < pages_of self.old.sizes }
        requires leg { l < 8 }
        ensures recovery { recoveries_of self.new ≡ with_at (recoveries_of self.old) n
            (option_map (λ r. with_cleared r p l) (recoveries_of self.old n)) }
        ensures sizes { self.new.sizes ≡ self.old.sizes }
    {
        node_rec::cleared(&mut self.places[n as usize], p, l);
    }
}
