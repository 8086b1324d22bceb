// Rows of writes.
ghost use Rattle.std.specs.Prelude.{◌≡◌, ◌<◌, None, Some, true, false, IsSome, map, if◌then◌else◌};
ghost use Rattle.mdc_types.specs.Geometry.{chunk_of, chunks_of};
ghost use Rattle.mirror_io.specs.Flight.{write_in};
ghost use Rattle.mirror_io.specs.declared.live.LiveWrite.{LiveWrite};
ghost use Rattle.leg_failure.specs.Views.{is_last};
ghost use Rattle.cluster_model.specs.State.{sizes};
ghost use Rattle.cluster_model.specs.Failures.{leg_lost};
ghost use Rattle.cluster_model.specs.After.{after};
ghost use Rattle.cluster_model.specs.Outcomes.{outcome_of};
ghost use Rattle.cluster_model.specs.Table.{refusal};
ghost use Rattle.cluster_model.specs.Writes.{start_write, out_done, write_sector, write_ended};
ghost use Rattle.world_state.specs.Kept.{core_of};
ghost use Rattle.world_state.specs.Told.{Carries, Fits, seen_of};
ghost use Rattle.world_state.specs.Ready.{Ready};

use crate::changes::{
    begin_write, break_chunk, chunk_of, done_on, drop_write, enter_chunk, exit_chunk, live_write,
    place_of, start_write,
};
use leg_store::LegDev;
use mdc_types::{ChunkNo, Event, LegId, NodeId, Outcome, Sector, SectorNo, WriteNo};
use world_state::{CoreState, send};

/// A new write of the value to the sector, whose chunk joins the node's set.
pub fn ask_write(core: &mut CoreState, n: NodeId, s: SectorNo, v: &Sector) -> Outcome
    requires accepted { refusal (core_of core.old) (Event.AskWrite n s v.now) ≡ None }
    requires ready { Ready (core_of core.old) }
    ensures outcome { result ≡ outcome_of (core_of core.old) (Event.AskWrite n s v.now) }
    ensures after { core_of core.new ≡ after (core_of core.old) (Event.AskWrite n s v.now) result }
{
    let c = chunk_of(core, s);
    enter_chunk(core, n, c);
    let k = begin_write(core, n, s, v);
    Outcome::Write(k)
}

// The leg has the value.
fn out_done(core: &mut CoreState, n: NodeId, k: WriteNo, l: LegId, s: SectorNo)
    requires node { n < 16 }
    requires leg { l < 8 }
    requires live { IsSome (write_in k ((core_of core.old).writes n)) }
    requires sector { write_sector (write_in k ((core_of core.old).writes n)) ≡ Some s }
    ensures { core_of core.new ≡ out_done (core_of core.old) n k l }
{
    start_write(core, n, k);
    done_on(core, n, k, l);
    core.set_head(n, l, s);
}

// The node lost the leg, and the write has started.
fn out_lost(core: &mut CoreState, n: NodeId, k: WriteNo, l: LegId)
    requires node { n < 16 }
    requires leg { l < 8 }
    requires live { IsSome (write_in k ((core_of core.old).writes n)) }
    requires more { is_last ((core_of core.old).view n) l ≡ false }
    ensures { core_of core.new ≡ leg_lost (start_write (core_of core.old) n k) n l }
{
    start_write(core, n, k);
    core.lose_leg(n, l);
}

// The last leg didn't take the value: the write is given up.
fn out_io(core: &mut CoreState, n: NodeId, k: WriteNo, c: ChunkNo)
    requires node { n < 16 }
    requires live { IsSome (write_in k ((core_of core.old).writes n)) }
    requires chunk { (w : LiveWrite) → write_in k ((core_of core.old).writes n) ≡ Some w
        → c ≡ chunk_of (sizes (core_of core.old)) w.sector }
    requires there { c < chunks_of (sizes (core_of core.old)) }
    requires counted { 0 < ((core_of core.old).bitmap n).writes c }
    ensures { core_of core.new ≡ write_ended (start_write (core_of core.old) n k) n k true }
{
    start_write(core, n, k);
    break_chunk(core, n, c);
    drop_write(core, n, k);
}

// The leg didn't take the value: it is lost, or it is the last one and the write is given up.
fn out_failed(core: &mut CoreState, n: NodeId, k: WriteNo, l: LegId) -> Outcome
    requires accepted { refusal (core_of core.old) (Event.Out n k l) ≡ None }
    requires ready { Ready (core_of core.old) }
    ensures failure { result ≡
        (if is_last ((core_of core.old).view n) l then Outcome.Io l else Outcome.Lost l) }
    ensures after { core_of core.new ≡
        (if is_last ((core_of core.old).view n) l
        then write_ended (start_write (core_of core.old) n k) n k true
        else leg_lost (start_write (core_of core.old) n k) n l) }
{
    if core.is_last(n, l) {
        let c = chunk_of(core, live_write(core, n, k).sector);
        out_io(core, n, k, c);
        return Outcome::Io(l);
    }
    out_lost(core, n, k, l);
    Outcome::Lost(l)
}

/// The write's value goes to the leg.
pub fn out_write<L: LegDev>(
    core: &mut CoreState,
    legs: &mut Vec<L>,
    n: NodeId,
    k: WriteNo,
    l: LegId,
) -> Outcome
    requires accepted { refusal (core_of core.old) (Event.Out n k l) ≡ None }
    requires ready { Ready (core_of core.old) }
    requires fits { Fits (sizes (core_of core.old)) (map L.size legs.old.items) }
    ensures carried { Carries (Event.Out n k l) result
        core.old (seen_of L.contents L.size L.faults L.plan legs.old.items)
        core.new (seen_of L.contents L.size L.faults L.plan legs.new.items) }
{
    let w = live_write(core, n, k);
    let at = place_of(core, w.sector);
    match send(core, legs, n, l, at, &w.value) {
        Ok(()) => {
            out_done(core, n, k, l, w.sector);
            Outcome::Done
        }
        Err(_) => out_failed(core, n, k, l),
    }
}

/// The write ends: each target has its value.
pub fn end_write(core: &mut CoreState, n: NodeId, k: WriteNo) -> Outcome
    requires accepted { refusal (core_of core.old) (Event.EndWrite n k) ≡ None }
    requires ready { Ready (core_of core.old) }
    ensures outcome { result ≡ outcome_of (core_of core.old) (Event.EndWrite n k) }
    ensures after { core_of core.new ≡ after (core_of core.old) (Event.EndWrite n k) result }
{
    let c = chunk_of(core, live_write(core, n, k).sector);
    exit_chunk(core, n, c);
    drop_write(core, n, k);
    Outcome::Done
}

/// The write is given up: its chunk is to be copied.
pub fn break_write(core: &mut CoreState, n: NodeId, k: WriteNo) -> Outcome
    requires accepted { refusal (core_of core.old) (Event.BreakWrite n k) ≡ None }
    requires ready { Ready (core_of core.old) }
    ensures outcome { result ≡ outcome_of (core_of core.old) (Event.BreakWrite n k) }
    ensures after { core_of core.new ≡ after (core_of core.old) (Event.BreakWrite n k) result }
{
    let c = chunk_of(core, live_write(core, n, k).sector);
    break_chunk(core, n, c);
    drop_write(core, n, k);
    Outcome::Done
}
