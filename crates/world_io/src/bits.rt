// Rows of a node's write-intent bitmap.
ghost use Rattle.std.specs.Prelude.{◌≡◌, ◌<◌, None, false, map, if◌then◌else◌};
ghost use Rattle.mdc_types.specs.Geometry.{nodes_of, pages_of, slot_pages, page_sector};
ghost use Rattle.leg_failure.specs.Views.{is_last};
ghost use Rattle.cluster_model.specs.Bits.{page_sector_of, page_failed};
ghost use Rattle.cluster_model.specs.Failures.{leg_lost};
ghost use Rattle.cluster_model.specs.State.{sizes};
ghost use Rattle.cluster_model.specs.After.{after};
ghost use Rattle.cluster_model.specs.Outcomes.{outcome_of};
ghost use Rattle.cluster_model.specs.Table.{refusal};
ghost use Rattle.world_state.specs.Kept.{core_of};
ghost use Rattle.world_state.specs.Told.{Carries, Fits, seen_of};
ghost use Rattle.world_state.specs.Ready.{Ready};

use crate::changes::{clear_chunk, page_failed, page_written};
use leg_store::LegDev;
use mdc_types::{ChunkNo, Event, LegId, NodeId, Outcome, PageNo, Sector};
use world_state::{CoreState, send};

// What the page of the node's slot says.
fn page(core: &CoreState, n: NodeId, p: PageNo) -> Sector
    requires node { n < 16 }
    requires page { p < slot_pages (sizes (core_of core.now)) }
    ensures { result ≡ page_sector_of (core_of core.now) p ((core_of core.now).bitmap n).set }
{
    core.bitmaps.page(n, &core.identity.uuid, p)
}

// Where the page lies on a leg.
fn page_place(core: &CoreState, n: NodeId, p: PageNo) -> u32
    requires node { n < nodes_of (sizes (core_of core.now)) }
    requires page { p < slot_pages (sizes (core_of core.now)) }
    ensures { result ≡ page_sector (sizes (core_of core.now)) n p }
{
    core.identity.geometry.page_sector(n, p)
}

// The node lost the leg, and either page may stand there.
fn page_lost(core: &mut CoreState, n: NodeId, p: PageNo, l: LegId)
    requires node { n < nodes_of (sizes (core_of core.old)) }
    requires page { p < pages_of (sizes (core_of core.old)) }
    requires leg { l < 8 }
    requires more { is_last ((core_of core.old).view n) l ≡ false }
    ensures { core_of core.new ≡ leg_lost (page_failed (core_of core.old) n p l) n l }
{
    page_failed(core, n, p, l);
    core.lose_leg(n, l);
}

// The leg didn't take the page: it is lost, or it is the last one.
fn page_missed(core: &mut CoreState, n: NodeId, p: PageNo, l: LegId) -> Outcome
    requires node { n < nodes_of (sizes (core_of core.old)) }
    requires page { p < pages_of (sizes (core_of core.old)) }
    requires leg { l < 8 }
    ensures failure { result ≡
        (if is_last ((core_of core.old).view n) l then Outcome.Io l else Outcome.Lost l) }
    ensures after { core_of core.new ≡
        (if is_last ((core_of core.old).view n) l then page_failed (core_of core.old) n p l
        else leg_lost (page_failed (core_of core.old) n p l) n l) }
{
    if core.is_last(n, l) {
        page_failed(core, n, p, l);
        return Outcome::Io(l);
    }
    page_lost(core, n, p, l);
    Outcome::Lost(l)
}

/// Page `p` of the node's slot goes to the leg.
pub fn write_page<L: LegDev>(
    core: &mut CoreState,
    legs: &mut Vec<L>,
    n: NodeId,
    p: PageNo,
    l: LegId,
) -> Outcome
    requires accepted { refusal (core_of core.old) (Event.WritePage n p l) ≡ None }
    requires ready { Ready (core_of core.old) }
    requires fits { Fits (sizes (core_of core.old)) (map L.size legs.old.items) }
    ensures carried { Carries (Event.WritePage n p l) result
        core.old (seen_of L.contents L.size L.faults L.plan legs.old.items)
        core.new (seen_of L.contents L.size L.faults L.plan legs.new.items) }
{
    let v = page(core, n, p);
    let at = page_place(core, n, p);
    match send(core, legs, n, l, at, &v) {
        Ok(()) => {
            page_written(core, n, p, l);
            Outcome::Done
        }
        Err(_) => page_missed(core, n, p, l),
    }
}

/// The chunk leaves the node's set.
pub fn clear(core: &mut CoreState, n: NodeId, c: ChunkNo) -> Outcome
    requires accepted { refusal (core_of core.old) (Event.Clear n c) ≡ None }
    requires ready { Ready (core_of core.old) }
    ensures outcome { result ≡ outcome_of (core_of core.old) (Event.Clear n c) }
    ensures after { core_of core.new ≡ after (core_of core.old) (Event.Clear n c) result }
{
    clear_chunk(core, n, c);
    Outcome::Done
}
