ghost use Rattle.std.specs.Prelude.{◌≡◌, ◌<◌, ℕ, nat_lt, ◌==◌, false, length, get_or, Option, Some, None, option_map, IfOk, IsSome, IfSome};
ghost use Rattle.dlm_modes.specs.Points.{with_at};
ghost use Rattle.mdc_types.specs.Bits.{has_bit};
ghost use Rattle.mdc_types.specs.Geometry.{chunks_of};
ghost use Rattle.resync_worker.specs.Copying.{begun, filled, copied, settled_at, covering_only, missing_of, completes};
ghost use Rattle.resync_worker.specs.declared.buffer.Buffer.{Buffer};
ghost use Rattle.node_bits.specs.Bitmaps.{bitmaps_of};
ghost use Rattle.cluster_model.specs.State.{Asked, Held};
ghost use Rattle.cluster_model.specs.Changes.{no_copy, window_closed};
ghost use Rattle.cluster_model.specs.Phases.{copy_word};
ghost use Rattle.cluster_model.specs.Copying.{next_for, buffer_in};
ghost use Rattle.cluster_model.specs.Wishes.{has_copied};
ghost use Rattle.node_copies.specs.Copies.{copies_of, copy_of, first_left, first_covered, IsNew, no_place};
ghost use Rattle.node_copies.specs.Places.{AreAll};
ghost use Rattle.node_copies.specs.declared.places.NodeCopy.{NodeCopy};

use crate::node_copy;
use crate::places::{NodeCopy, Turn};
use mdc_types::{
    ChunkNo, ChunkSet, Geometry, LegId, NodeId, Range, Sector, SectorNo, Word, with_leg,
};
use node_bits::Bitmaps;
use resync_worker::Pass;
use std::alloc::{AllocError, Global};
use std::marker::Model;

/// What all nodes have of copying: the turn at the lock under which they copy, the pass, and the window
/// that is open. Nodes are below 16. Sets of legs have one bit for each leg. Only `new` takes memory.
///
/// Contracts see the sizes and the places as plain data, and speak of the copying that they stand for.
#[derive(Drop)]
pub struct Copies {
    geometry: Geometry,
    places: Vec<NodeCopy>,
    // What a pass is to copy, while it begins.
    chunks: ChunkSet,
}

impl Model for Copies {
    ghost use Rattle.std.specs.Prelude.{length};
    ghost use Rattle.node_copies.specs.Copies.{Copyings, AreCopies};

    ghost Value = { Copyings };

    ghost view = { λ t. record { sizes = t.geometry; places = t.places.items; chunks = t.chunks } };

    ghost invariant = { λ t. AreCopies t.geometry t.places.items (length t.chunks) };
}

// The copying of a node that copies nothing.
fn new_place(alloc: Global, g: &Geometry) -> Result<NodeCopy, AllocError>
    ensures { IfOk result (λ x. IsNew g.now x) }
{
    Ok(NodeCopy {
        turn: Turn::NotAsked,
        begun: false,
        pass: Pass::begin(g, ChunkSet::new(alloc, g.chunks())?, 0),
        window: None,
    })
}

fn new_places(alloc: Global, g: &Geometry) -> Result<Vec<NodeCopy>, AllocError>
    ensures { IfOk result (λ xs. AreAll NodeCopy (IsNew g.now) no_place 16 xs.items) }
{
    let mut places = Vec::with_capacity(alloc, 16)?;
    for _ in 0..16u8 {
        places.push(new_place(alloc, g)?)?;
    }
    Ok(places)
}

impl Copies {
    /// Nothing is copied, on an array of this geometry. Takes all memory that copying needs.
    pub fn new(alloc: Global, g: &Geometry) -> Result<Copies, AllocError>
        ensures copies { IfOk result (λ t. copies_of t ≡ (λ n. no_copy)) }
        ensures sizes { IfOk result (λ t. t.sizes ≡ g.now) }
    {
        Ok(Copies {
            geometry: *g,
            places: new_places(alloc, g)?,
            chunks: ChunkSet::new(alloc, g.chunks())?,
        })
    }

    /// The word of the node's copying: nothing, asked, held, pass, window or buffer.
    pub fn word(&self, n: NodeId) -> Word
        requires { n < 16 }
        ensures { result ≡ copy_word (copies_of self.now n) }
    {
        node_copy::word_of(&self.places[n as usize])
    }

    /// The node's window.
    pub fn window(&self, n: NodeId) -> Option<Range>
        requires { n < 16 }
        ensures { result ≡ (copies_of self.now n).window }
    {
        self.places[n as usize].window
    }

    /// The sector that is copied next.
    pub fn next(&self, n: NodeId) -> Option<SectorNo>
        requires { n < 16 }
        ensures value { result ≡ next_for self.now.sizes (copies_of self.now n).pass
            (copies_of self.now n).window }
        ensures range { IfSome result (λ s. s < self.now.sizes.room) }
    {
        node_copy::next_of(&self.places[n as usize])
    }

    /// The sector in the buffer, and its value.
    pub fn buffer(&self, n: NodeId) -> Option<(SectorNo, Sector)>
        requires { n < 16 }
        ensures value { result ≡ option_map (λ b. (b.sector, b.value))
            (buffer_in (copies_of self.now n).pass) }
        ensures range { IfSome result (λ b. b.0 < self.now.sizes.room) }
    {
        node_copy::buffer_of(&self.places[n as usize])
    }

    /// The least target that doesn't have the buffer's value. None where there is no buffer.
    pub fn missing(&self, n: NodeId, targets: u8) -> Option<LegId>
        requires { n < 16 }
        ensures { result ≡ missing_of (has_bit targets) (buffer_in (copies_of self.now n).pass) }
    {
        node_copy::missing_of(&self.places[n as usize], targets)
    }

    /// The first chunk that the pass is still to copy. None where there is no pass.
    pub fn left(&self, n: NodeId) -> Option<ChunkNo>
        requires { n < 16 }
        ensures { result ≡ first_left self.now.sizes (copies_of self.now n).pass }
    {
        node_copy::left_of(&self.places[n as usize])
    }

    /// The first leg that the pass covers. None where there is no pass.
    pub fn covered(&self, n: NodeId) -> Option<LegId>
        requires { n < 16 }
        ensures { result ≡ first_covered (copies_of self.now n).pass }
    {
        node_copy::covered(&self.places[n as usize])
    }

    /// Whether the pass covers the leg and has nothing left to copy.
    pub fn has_copied(&self, n: NodeId, l: LegId) -> bool
        requires node { n < 16 }
        requires leg { l < 8 }
        ensures { result ≡ has_copied self.now.sizes (copies_of self.now n).pass l }
    {
        node_copy::has_copied(&self.places[n as usize], l)
    }

    /// The node has asked for the lock.
    pub fn ask(&mut self, n: NodeId)
        requires { n < 16 }
        ensures copy { copies_of self.new ≡ with_at (copies_of self.old) n
            (record (copies_of self.old n) { turn = Asked }) }
        ensures sizes { self.new.sizes ≡ self.old.sizes }
    {
        self.places[n as usize].turn = Turn::Asked;
    }

    /// The node has the lock.
    pub fn held(&mut self, n: NodeId)
        requires { n < 16 }
        ensures copy { copies_of self.new ≡ with_at (copies_of self.old) n
            (record (copies_of self.old n) { turn = Held }) }
        ensures sizes { self.new.sizes ≡ self.old.sizes }
    {
        self.places[n as usize].turn = Turn::Held;
    }

    /// A pass begins over the chunks that the node needs. It covers no leg.
    pub fn begin_own(&mut self, n: NodeId, bitmaps: &Bitmaps)
        requires node { n < 16 }
        requires sizes { bitmaps.now.sizes ≡ self.old.sizes }
        ensures copy { copies_of self.new ≡ with_at (copies_of self.old) n
            (record (copies_of self.old n)
            { pass = Some (begun (bitmaps_of bitmaps.now n).need (λ l. false)) }) }
        ensures sizes { self.new.sizes ≡ self.old.sizes }
    {
        bitmaps.needed_into(n, &mut self.chunks);
        node_copy::begin(&mut self.places[n as usize], &self.chunks, 0);
    }

    /// A pass begins over all chunks, and covers these legs.
    pub fn begin_full(&mut self, n: NodeId, legs: u8)
        requires { n < 16 }
        ensures copy { copies_of self.new ≡ with_at (copies_of self.old) n
            (record (copies_of self.old n)
            { pass = Some (begun (λ c. nat_lt c (chunks_of self.old.sizes)) (has_bit legs)) }) }
        ensures sizes { self.new.sizes ≡ self.old.sizes }
    {
        node_copy::begin_full(&mut self.places[n as usize], legs);
    }

    /// A pass begins over these chunks, and covers the leg.
    pub fn begin_again(&mut self, n: NodeId, chunks: &ChunkSet, l: LegId)
        requires node { n < 16 }
        requires chunks { length chunks.now ≡ chunks_of self.old.sizes }
        requires leg { l < 8 }
        ensures copy { copies_of self.new ≡ with_at (copies_of self.old) n
            (record (copies_of self.old n)
            { pass = Some (begun (λ c. get_or chunks.now c false) (λ k. k == l)) }) }
        ensures sizes { self.new.sizes ≡ self.old.sizes }
    {
        node_copy::begin(&mut self.places[n as usize], chunks, with_leg(0, l));
    }

    /// The pass ends, the window closes and the lock is let go.
    pub fn end(&mut self, n: NodeId)
        requires { n < 16 }
        ensures copy { copies_of self.new ≡ with_at (copies_of self.old) n no_copy }
        ensures sizes { self.new.sizes ≡ self.old.sizes }
    {
        node_copy::end(&mut self.places[n as usize]);
    }

    /// The window opens, or is put in place of the one before.
    pub fn open_window(&mut self, n: NodeId, window: Option<Range>)
        requires { n < 16 }
        ensures copy { copies_of self.new ≡ with_at (copies_of self.old) n
            (record (copies_of self.old n) { window = window }) }
        ensures sizes { self.new.sizes ≡ self.old.sizes }
    {
        self.places[n as usize].window = window;
    }

    /// The window closes, and the buffer is dropped.
    pub fn close_window(&mut self, n: NodeId)
        requires { n < 16 }
        ensures copy { copies_of self.new ≡ with_at (copies_of self.old) n
            (window_closed (copies_of self.old n)) }
        ensures sizes { self.new.sizes ≡ self.old.sizes }
    {
        node_copy::close_window(&mut self.places[n as usize]);
    }

    /// The sector that is copied next was read from the leg, and is in the buffer.
    pub fn copied_in(&mut self, n: NodeId, v: &Sector, l: LegId)
        requires node { n < 16 }
        requires leg { l < 8 }
        requires empty { buffer_in (copies_of self.old n).pass ≡ None }
        requires next { IsSome (next_for self.old.sizes (copies_of self.old n).pass
            (copies_of self.old n).window) }
        ensures copy { (s : ℕ) → next_for self.old.sizes (copies_of self.old n).pass
            (copies_of self.old n).window ≡ Some s
            → copies_of self.new ≡ with_at (copies_of self.old) n
            (record (copies_of self.old n)
            { pass = option_map (λ p. filled p s v.now l) (copies_of self.old n).pass }) }
        ensures sizes { self.new.sizes ≡ self.old.sizes }
    {
        node_copy::copied_in(&mut self.places[n as usize], v, l);
    }

    /// The buffer was written to the leg. Nothing changes where there is no buffer.
    pub fn copied_out(&mut self, n: NodeId, l: LegId)
        requires node { n < 16 }
        requires leg { l < 8 }
        ensures copy { copies_of self.new ≡ with_at (copies_of self.old) n
            (record (copies_of self.old n)
            { pass = option_map (λ p. copied p l) (copies_of self.old n).pass }) }
        ensures sizes { self.new.sizes ≡ self.old.sizes }
    {
        node_copy::copied_out(&mut self.places[n as usize], l);
    }

    /// The buffer's sector is settled, and the buffer is empty. Gives the chunk that the sector completes.
    pub fn settled(&mut self, n: NodeId) -> Option<ChunkNo>
        requires { n < 16 }
        ensures copy { (b : Buffer) → buffer_in (copies_of self.old n).pass ≡ Some b
            → copies_of self.new ≡ with_at (copies_of self.old) n
            (record (copies_of self.old n) {
              pass = option_map (λ p. settled_at self.old.sizes p b)
                  (copies_of self.old n).pass;
            }) }
        ensures told { (b : Buffer) → buffer_in (copies_of self.old n).pass ≡ Some b
            → result ≡ completes self.old.sizes b }
        ensures range { IfSome result (λ c. c < chunks_of self.old.sizes) }
        ensures sizes { self.new.sizes ≡ self.old.sizes }
    {
        node_copy::settled(&mut self.places[n as usize])
    }

    /// Of the covered legs only these stay covered.
    pub fn cover_only(&mut self, n: NodeId, legs: u8)
        requires { n < 16 }
        ensures copy { copies_of self.new ≡ with_at (copies_of self.old) n
            (record (copies_of self.old n) {
              pass = option_map (λ p. covering_only p (has_bit legs))
                  (copies_of self.old n).pass;
            }) }
        ensures sizes { self.new.sizes ≡ self.old.sizes }
    {
        node_copy::cover_only(&mut self.places[n as usize], legs);
    }
}
