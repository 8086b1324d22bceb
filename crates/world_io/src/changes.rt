// Look-ups and changes of the state that the rows of requests are made of.
ghost use Rattle.std.specs.Prelude.{◌≡◌, ◌<◌, ◌-◌, ◌+◌, ◌^◌, [], ◌∷◌, ◌++◌, length, true, None, Some, IsSome};
ghost use Rattle.dlm_modes.specs.First.{first_such};
ghost use Rattle.dlm_modes.specs.Points.{with_at};
ghost use Rattle.mdc_types.specs.Geometry.{IsGeometry, chunk_of, chunks_of, pages_of};
ghost use Rattle.mirror_io.specs.Flight.{write_in, read_in, without_write, new_write, new_read, done_in};
ghost use Rattle.node_bitmaps.specs.Bitmap.{with_set, with_need, entered, exited};
ghost use Rattle.cluster_model.specs.State.{sizes, place_of};
ghost use Rattle.cluster_model.specs.Bits.{page_written, page_failed, clear};
ghost use Rattle.cluster_model.specs.Reads.{end_read};
ghost use Rattle.cluster_model.specs.Writes.{any_of_sector, start_write};
ghost use Rattle.world_state.specs.Kept.{core_of};

use mdc_types::{ChunkNo, LegId, NodeId, PageNo, ReadNo, Sector, SectorNo, WriteNo};
use mirror_io::{LiveRead, LiveWrite};
use world_state::CoreState;

/// The node's live write of this number.
pub fn live_write(core: &CoreState, n: NodeId, k: WriteNo) -> LiveWrite
    requires node { n < 16 }
    requires live { IsSome (write_in k ((core_of core.now).writes n)) }
    ensures { write_in k ((core_of core.now).writes n) ≡ Some result }
{
    match core.requests.write(n, k) {
        Some(w) => *w,
        None => unreachable!(),
    }
}

/// The node's live read of this number.
pub fn live_read(core: &CoreState, n: NodeId, k: ReadNo) -> LiveRead
    requires node { n < 16 }
    requires live { IsSome (read_in k ((core_of core.now).reads n)) }
    ensures { read_in k ((core_of core.now).reads n) ≡ Some result }
{
    match core.requests.read(n, k) {
        Some(r) => *r,
        None => unreachable!(),
    }
}

pub fn chunk_of(core: &CoreState, s: SectorNo) -> ChunkNo
    ensures { result ≡ chunk_of (sizes (core_of core.now)) s }
{
    core.identity.geometry.chunk_of(s)
}

/// Where a sector of the data lies on a leg.
pub fn place_of(core: &CoreState, s: SectorNo) -> u32
    requires sizes { IsGeometry (sizes (core_of core.now)) }
    requires sector { s < (sizes (core_of core.now)).room }
    ensures { result ≡ place_of (core_of core.now) s }
{
    core.identity.geometry.data_offset() + s
}

// Writes and reads in flight.

/// A transfer of the write to a leg was tried.
#[tactic(auto, using(crate::proofs::Changing::writes_are))]
pub fn start_write(core: &mut CoreState, n: NodeId, k: WriteNo)
    requires node { n < 16 }
    requires live { IsSome (write_in k ((core_of core.old).writes n)) }
    ensures { core_of core.new ≡ start_write (core_of core.old) n k }
{
    core.requests.start(n, k);
}

/// The leg has the write's value.
#[tactic(auto, using(crate::proofs::Changing::writes_are))]
pub fn done_on(core: &mut CoreState, n: NodeId, k: WriteNo, l: LegId)
    requires node { n < 16 }
    requires leg { l < 8 }
    requires live { IsSome (write_in k ((core_of core.old).writes n)) }
    ensures { core_of core.new ≡ record (core_of core.old) {
      writes = with_at (core_of core.old).writes n (done_in k l ((core_of core.old).writes n));
    } }
{
    core.requests.out_done(n, k, l);
}

/// The write is in flight no more.
#[tactic(auto, using(crate::proofs::Changing::writes_are))]
pub fn drop_write(core: &mut CoreState, n: NodeId, k: WriteNo)
    requires node { n < 16 }
    requires live { IsSome (write_in k ((core_of core.old).writes n)) }
    ensures { core_of core.new ≡ record (core_of core.old) {
      writes = with_at (core_of core.old).writes n (without_write k ((core_of core.old).writes n));
    } }
{
    core.requests.end_write(n, k);
}

/// The read is in flight no more.
#[tactic(auto, using(crate::proofs::Changing::reads_are))]
pub fn end_read(core: &mut CoreState, n: NodeId, k: ReadNo)
    requires node { n < 16 }
    requires live { IsSome (read_in k ((core_of core.old).reads n)) }
    ensures { core_of core.new ≡ end_read (core_of core.old) n k }
{
    core.requests.end_read(n, k);
}

// The bitmap.

/// The page was written to the leg.
#[tactic(auto, using(crate::proofs::Changing::bits_are))]
pub fn page_written(core: &mut CoreState, n: NodeId, p: PageNo, l: LegId)
    requires node { n < 16 }
    requires page { p < pages_of (sizes (core_of core.old)) }
    requires leg { l < 8 }
    ensures { core_of core.new ≡ page_written (core_of core.old) n p l }
{
    core.bitmaps.page_out(n, p, l);
}

/// A write of the page to the leg failed.
#[tactic(auto, using(crate::proofs::Changing::bits_are))]
pub fn page_failed(core: &mut CoreState, n: NodeId, p: PageNo, l: LegId)
    requires node { n < 16 }
    requires page { p < pages_of (sizes (core_of core.old)) }
    requires leg { l < 8 }
    ensures { core_of core.new ≡ page_failed (core_of core.old) n p l }
{
    core.bitmaps.page_failed(n, p, l);
}

/// The chunk leaves the node's set.
#[tactic(auto, using(crate::proofs::Changing::bits_are))]
pub fn clear_chunk(core: &mut CoreState, n: NodeId, c: ChunkNo)
    requires node { n < 16 }
    requires chunk { c < chunks_of (sizes (core_of core.old)) }
    ensures { core_of core.new ≡ clear (core_of core.old) n c }
{
    core.bitmaps.clear(n, c);
}

/// The chunk joins the node's set, which has one live write more there.
pub fn enter_chunk(core: &mut CoreState, n: NodeId, c: ChunkNo)
    requires node { n < 16 }
    requires chunk { c < chunks_of (sizes (core_of core.old)) }
    requires room { ((core_of core.old).bitmap n).writes c < 16 }
    ensures { core_of core.new ≡ record (core_of core.old) {
      bitmap = with_at (core_of core.old).bitmap n
          (entered (with_set ((core_of core.old).bitmap n) c true) c);
    } }
{
    core.bitmaps.set(n, c);
    core.bitmaps.enter(n, c);
}

/// The node has one live write less in the chunk.
#[tactic(auto, using(crate::proofs::Changing::bits_are))]
pub fn exit_chunk(core: &mut CoreState, n: NodeId, c: ChunkNo)
    requires node { n < 16 }
    requires chunk { c < chunks_of (sizes (core_of core.old)) }
    requires live { 0 < ((core_of core.old).bitmap n).writes c }
    ensures { core_of core.new ≡ record (core_of core.old) {
      bitmap = with_at (core_of core.old).bitmap n (exited ((core_of core.old).bitmap n) c);
    } }
{
    core.bitmaps.exit(n, c);
}

/// The node has one live write less in the chunk, which is to be copied.
pub fn break_chunk(core: &mut CoreState, n: NodeId, c: ChunkNo)
    requires node { n < 16 }
    requires chunk { c < chunks_of (sizes (core_of core.old)) }
    requires live { 0 < ((core_of core.old).bitmap n).writes c }
    ensures { core_of core.new ≡ record (core_of core.old) {
      bitmap = with_at (core_of core.old).bitmap n
          (with_need (exited ((core_of core.old).bitmap n) c) c true);
    } }
{
    core.bitmaps.exit(n, c);
    core.bitmaps.need(n, c);
}

/// A new write, and its number.
#[tactic(auto, using(crate::proofs::Changing::asked_write))]
pub fn begin_write(core: &mut CoreState, n: NodeId, s: SectorNo, v: &Sector) -> WriteNo
    requires node { n < 16 }
    requires room { length ((core_of core.old).writes n) < 16 }
    requires free { first_such (λ m. any_of_sector s ((core_of core.old).writes m)) 0 16 ≡ None }
    requires numbers { (core_of core.old).writes_made n < 2 ^ 32 - 1 }
    ensures number { result ≡ (core_of core.old).writes_made n }
    ensures asked { core_of core.new ≡ record (core_of core.old) {
      writes = with_at (core_of core.old).writes n
          ((core_of core.old).writes n
          ++ new_write ((core_of core.old).writes_made n) s v.now ∷ []);
      writes_made = with_at (core_of core.old).writes_made n ((core_of core.old).writes_made n + 1);
    } }
{
    core.requests.ask_write(n, s, v)
}

/// A new read, which goes to the chosen leg, and its number.
#[tactic(auto, using(crate::proofs::Changing::asked_read))]
pub fn begin_read(core: &mut CoreState, n: NodeId, s: SectorNo, chosen: LegId) -> ReadNo
    requires node { n < 16 }
    requires room { length ((core_of core.old).reads n) < 16 }
    requires numbers { (core_of core.old).reads_made n < 2 ^ 32 - 1 }
    ensures number { result ≡ (core_of core.old).reads_made n }
    ensures asked { core_of core.new ≡ record (core_of core.old) {
      reads = with_at (core_of core.old).reads n
          ((core_of core.old).reads n ++ new_read ((core_of core.old).reads_made n) s chosen ∷ []);
      reads_made = with_at (core_of core.old).reads_made n ((core_of core.old).reads_made n + 1);
    } }
{
    core.requests.ask_read(n, s, chosen)
}
