// The guards of each row, in order.
ghost use Rattle.std.specs.Prelude.{◌≡◌, ◌<◌, not, ◌&&◌, ◌||◌, IsSome, nat_lt, length, is_some};
ghost use Rattle.dlm_modes.specs.First.{first_such};
ghost use Rattle.dlm_modes.specs.Guards.{unless};
ghost use Rattle.mdc_types.specs.Geometry.{nodes_of, chunks_of, chunk_start, chunk_end};
ghost use Rattle.mdc_types.specs.Roles.{role_of, is_faulty, is_rebuilding};
ghost use Rattle.mdc_types.specs.declared.numbers.Sector.{Sector};
ghost use Rattle.mirror_io.specs.Flight.{write_in, read_in};
ghost use Rattle.leg_failure.specs.Views.{view_of, is_target};
ghost use Rattle.suspend_ranges.specs.Suspended.{covering};
ghost use Rattle.cluster_model.specs.Bits.{is_degraded};
ghost use Rattle.cluster_model.specs.Guards.{refused_by, found_or, draining_in};
ghost use Rattle.cluster_model.specs.Phases.{needs_up};
ghost use Rattle.cluster_model.specs.Table.{refusal};
ghost use Rattle.cluster_model.specs.Writes.{not_leaving, no_sector, no_write, unmarked_leg, unwritten_target, writer_of};
ghost use Rattle.world_state.specs.Kept.{core_of, Judges};
ghost use Rattle.world_state.specs.Ready.{Ready};

use mdc_types::{
    ChunkNo, Event, LegId, NodeId, PageNo, ReadNo, Refusal, Role, Roles, SectorNo, Wish, WriteNo,
};
use msg_rounds::SenderPhase;
use world_state::{CoreState, check};

// The node has not published that it leaves.
fn check_stays(core: &CoreState, n: NodeId) -> Result<(), Refusal>
    requires { n < nodes_of core.now.identity.geometry }
    ensures { Judges result (not_leaving (core_of core.now) n) }
{
    let leaves = match core.offers[n as usize] {
        Some(offer) => matches!(offer.wish, Wish::Unclean),
        None => false,
    };
    let phase = core.sender(n).sender_phase();
    let has_published = matches!(phase, SenderPhase::Published | SenderPhase::Granted);
    core.check_sender(n, !(has_published && leaves))
}

// The sector is one of those that the node may use.
fn check_sector(core: &CoreState, n: NodeId, s: SectorNo) -> Result<(), Refusal>
    requires { n < nodes_of core.now.identity.geometry }
    ensures { Judges result (no_sector (core_of core.now) n s) }
{
    check(s < core.view(n).sure_size(), Refusal::NoSector(s))
}

// The sector is in no range in which the node's writes wait.
fn check_unsuspended(core: &CoreState, n: NodeId, s: SectorNo) -> Result<(), Refusal>
    requires { n < nodes_of core.now.identity.geometry }
    ensures { Judges result
        (refused_by Refusal.Suspended (covering ((core_of core.now).suspended n) s)) }
{
    match core.suspended[n as usize].covers(s) {
        None => Ok(()),
        Some(owner) => Err(Refusal::Suspended(owner)),
    }
}

// The node of the array that has a live write of the sector.
fn writer_of(core: &CoreState, s: SectorNo) -> Option<NodeId>
    ensures { result ≡ writer_of (core_of core.now) s }
{
    let m = core.requests.writer_of(s)?;
    if m < core.identity.geometry.nodes() {
        return Some(m);
    }
    None
}

// No node has a live write of the sector.
fn check_free(core: &CoreState, s: SectorNo) -> Result<(), Refusal>
    ensures { Judges result (refused_by Refusal.InFlight (writer_of (core_of core.now) s)) }
{
    match writer_of(core, s) {
        None => Ok(()),
        Some(m) => Err(Refusal::InFlight(m)),
    }
}

fn check_write(core: &CoreState, n: NodeId, k: WriteNo) -> Result<(), Refusal>
    requires { n < nodes_of core.now.identity.geometry }
    ensures { Judges result (no_write k (write_in k ((core_of core.now).writes n))) }
{
    match core.requests.write(n, k) {
        None => Err(Refusal::NoWrite(k)),
        Some(_) => Ok(()),
    }
}

fn check_read(core: &CoreState, n: NodeId, k: ReadNo) -> Result<(), Refusal>
    requires { n < nodes_of core.now.identity.geometry }
    ensures { Judges result (found_or (read_in k ((core_of core.now).reads n)) (Refusal.NoRead k)) }
{
    match core.requests.read(n, k) {
        None => Err(Refusal::NoRead(k)),
        Some(_) => Ok(()),
    }
}

// The least target that doesn't have the write's value.
fn unwritten_target(core: &CoreState, n: NodeId, k: WriteNo) -> Option<LegId>
    requires node { n < nodes_of core.now.identity.geometry }
    requires live { IsSome (write_in k ((core_of core.now).writes n)) }
    ensures { result ≡
        unwritten_target (core_of core.now) n (write_in k ((core_of core.now).writes n)) }
{
    core.requests.missing(n, k, core.view(n).targets())
}

// Each target has the write's value.
fn check_written(core: &CoreState, n: NodeId, k: WriteNo) -> Result<(), Refusal>
    requires node { n < nodes_of core.now.identity.geometry }
    requires live { IsSome (write_in k ((core_of core.now).writes n)) }
    ensures { Judges result (refused_by Refusal.NotWritten
        (unwritten_target (core_of core.now) n (write_in k ((core_of core.now).writes n)))) }
{
    match unwritten_target(core, n, k) {
        None => Ok(()),
        Some(l) => Err(Refusal::NotWritten(l)),
    }
}

// The least target on which the bit of the write's chunk doesn't surely stand.
fn unmarked_leg(core: &CoreState, n: NodeId, k: WriteNo) -> Option<LegId>
    requires node { n < nodes_of core.now.identity.geometry }
    requires ready { Ready (core_of core.now) }
    ensures { result ≡
        unmarked_leg (core_of core.now) n (write_in k ((core_of core.now).writes n)) }
{
    let s = core.requests.write(n, k)?.sector;
    let c = core.identity.geometry.chunk_of(s);
    core.bitmaps.unmarked_target(n, core.view(n).targets(), c)
}

// The bit of the write's chunk stands on each target.
fn check_marked(core: &CoreState, n: NodeId, k: WriteNo) -> Result<(), Refusal>
    requires node { n < nodes_of core.now.identity.geometry }
    requires ready { Ready (core_of core.now) }
    ensures { Judges result (refused_by Refusal.BitMissing
        (unmarked_leg (core_of core.now) n (write_in k ((core_of core.now).writes n)))) }
{
    match unmarked_leg(core, n, k) {
        None => Ok(()),
        Some(l) => Err(Refusal::BitMissing(l)),
    }
}

// The node has no live write in the chunk.
fn check_drained(core: &CoreState, n: NodeId, c: ChunkNo) -> Result<(), Refusal>
    requires node { n < nodes_of core.now.identity.geometry }
    requires chunk { c < chunks_of core.now.identity.geometry }
    ensures { Judges result (draining_in (core_of core.now) n
        (chunk_start core.now.identity.geometry c) (chunk_end core.now.identity.geometry c)) }
{
    match core
        .requests
        .drain(n, core.identity.geometry.chunk_range(c))
    {
        None => Ok(()),
        Some(k) => Err(Refusal::Draining(k)),
    }
}

fn is_degraded(role: Role) -> bool
    ensures { result ≡ (is_faulty role || is_rebuilding role) }
{
    matches!(role, Role::Faulty | Role::Rebuilding)
}

// The least leg that is faulty or rebuilding.
fn degraded_leg(roles: &Roles) -> Option<LegId>
    ensures { result ≡ first_such
        (λ l. is_faulty (role_of roles.now l) || is_rebuilding (role_of roles.now l)) 0 8 }
{
    for l in 0..8 {
        if is_degraded(roles.of(l)) {
            return Some(l);
        }
    }
    None
}

// The least leg that the node takes for faulty or rebuilding.
fn lacking_leg(core: &CoreState, n: NodeId) -> Option<LegId>
    requires { n < nodes_of core.now.identity.geometry }
    ensures { result ≡ first_such (is_degraded ((core_of core.now).view n)) 0 8 }
{
    degraded_leg(core.view(n).roles())
}

// No leg is faulty or rebuilding.
fn check_whole(core: &CoreState, n: NodeId) -> Result<(), Refusal>
    requires { n < nodes_of core.now.identity.geometry }
    ensures { Judges result (refused_by Refusal.Degraded
        (first_such (is_degraded ((core_of core.now).view n)) 0 8)) }
{
    match lacking_leg(core, n) {
        None => Ok(()),
        Some(l) => Err(Refusal::Degraded(l)),
    }
}

fn check_chunk(core: &CoreState, c: ChunkNo) -> Result<(), Refusal>
    ensures { Judges result
        (unless (nat_lt c (chunks_of core.now.identity.geometry)) (Refusal.NoChunk c)) }
{
    check(c < core.identity.geometry.chunks(), Refusal::NoChunk(c))
}

// The chunk is in the node's set.
fn check_set(core: &CoreState, n: NodeId, c: ChunkNo) -> Result<(), Refusal>
    requires node { n < nodes_of core.now.identity.geometry }
    requires chunk { c < chunks_of core.now.identity.geometry }
    ensures { Judges result (unless (((core_of core.now).bitmap n).set c) Refusal.NotNeeded) }
{
    check(core.bitmaps.has(n, c), Refusal::NotNeeded)
}

// The chunk isn't to be copied.
fn check_settled(core: &CoreState, n: NodeId, c: ChunkNo) -> Result<(), Refusal>
    requires node { n < nodes_of core.now.identity.geometry }
    requires chunk { c < chunks_of core.now.identity.geometry }
    ensures { Judges result
        (unless (not (((core_of core.now).bitmap n).need c)) (Refusal.Needed c)) }
{
    check(!core.bitmaps.needs(n, c), Refusal::Needed(c))
}

/// The guards of a new write.
pub fn may_ask_write(core: &CoreState, n: NodeId, s: SectorNo) -> Result<(), Refusal>
    ensures { (v : Sector) → Judges result (refusal (core_of core.now) (Event.AskWrite n s v)) }
{
    core.check_node(n)?;
    core.check_unfenced(n)?;
    core.check_live(n)?;
    core.check_up(n)?;
    check_stays(core, n)?;
    check_sector(core, n, s)?;
    check_unsuspended(core, n, s)?;
    check_free(core, s)?;
    check(core.requests.can_write(n), Refusal::Full(n))
}

/// The guards of the end of a write.
pub fn may_end_write(core: &CoreState, n: NodeId, k: WriteNo) -> Result<(), Refusal>
    ensures { Judges result (refusal (core_of core.now) (Event.EndWrite n k)) }
{
    core.check_node(n)?;
    core.check_unfenced(n)?;
    core.check_live(n)?;
    core.check_up(n)?;
    check_write(core, n, k)?;
    core.check_acked(n)?;
    check_written(core, n, k)
}

/// The guards of the breaking of a write.
pub fn may_break_write(core: &CoreState, n: NodeId, k: WriteNo) -> Result<(), Refusal>
    ensures { Judges result (refusal (core_of core.now) (Event.BreakWrite n k)) }
{
    core.check_node(n)?;
    core.check_unfenced(n)?;
    core.check_live(n)?;
    core.check_up(n)?;
    check_write(core, n, k)?;
    check(core.unacked_leg(n).is_some(), Refusal::NotNeeded)
}

/// The guards of a new read.
pub fn may_ask_read(core: &CoreState, n: NodeId, s: SectorNo) -> Result<(), Refusal>
    ensures { Judges result (refusal (core_of core.now) (Event.AskRead n s)) }
{
    core.check_node(n)?;
    core.check_unfenced(n)?;
    core.check_live(n)?;
    core.check_up(n)?;
    check_stays(core, n)?;
    check_sector(core, n, s)?;
    check(core.requests.can_read(n), Refusal::Full(n))
}

/// The guards of a transfer for a read.
pub fn may_in(core: &CoreState, n: NodeId, k: ReadNo) -> Result<(), Refusal>
    ensures { Judges result (refusal (core_of core.now) (Event.In n k)) }
{
    core.check_node(n)?;
    core.check_unfenced(n)?;
    core.check_live(n)?;
    core.check_up(n)?;
    check_read(core, n, k)
}

/// The guards of a transfer of a page of the node's slot.
pub fn may_write_page(core: &CoreState, n: NodeId, p: PageNo, l: LegId) -> Result<(), Refusal>
    ensures { Judges result (refusal (core_of core.now) (Event.WritePage n p l)) }
{
    core.check_node(n)?;
    core.check_unfenced(n)?;
    core.check_live(n)?;
    core.check_leg(l)?;
    core.check_up(n)?;
    core.check_page(p)?;
    core.check_target(n, l)
}

/// The guards of a transfer of a write to a leg.
pub fn may_out(core: &CoreState, n: NodeId, k: WriteNo, l: LegId) -> Result<(), Refusal>
    requires { Ready (core_of core.now) }
    ensures { Judges result (refusal (core_of core.now) (Event.Out n k l)) }
{
    core.check_node(n)?;
    core.check_unfenced(n)?;
    core.check_live(n)?;
    core.check_leg(l)?;
    core.check_up(n)?;
    check_write(core, n, k)?;
    core.check_target(n, l)?;
    core.check_acked(n)?;
    check_marked(core, n, k)
}

/// The guards of taking a chunk out of the node's set.
pub fn may_clear(core: &CoreState, n: NodeId, c: ChunkNo) -> Result<(), Refusal>
    ensures { Judges result (refusal (core_of core.now) (Event.Clear n c)) }
{
    core.check_node(n)?;
    core.check_unfenced(n)?;
    core.check_live(n)?;
    core.check_up(n)?;
    check_chunk(core, c)?;
    check_set(core, n, c)?;
    check_drained(core, n, c)?;
    check_settled(core, n, c)?;
    core.check_acked(n)?;
    check_whole(core, n)
}
