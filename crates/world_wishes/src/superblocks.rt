// `sb`: the proposed superblock is written to a leg.
ghost use Rattle.std.specs.Prelude.{◌≡◌, ◌<◌, None, Some, map};
ghost use Rattle.mdc_types.specs.Geometry.{nodes_of};
ghost use Rattle.cluster_model.specs.State.{sizes};
ghost use Rattle.cluster_model.specs.Phases.{is_metadata, offers};
ghost use Rattle.cluster_model.specs.Superblocks.{proposes, super_written};
ghost use Rattle.cluster_model.specs.Failures.{failure};
ghost use Rattle.cluster_model.specs.After.{after};
ghost use Rattle.cluster_model.specs.Transfers.{transfer_of, writes_to};
ghost use Rattle.cluster_model.specs.Table.{refusal};
ghost use Rattle.world_state.specs.Kept.{core_of, Judges};
ghost use Rattle.world_state.specs.Ready.{Ready};
ghost use Rattle.world_state.specs.Told.{Carries, Fits, seen_of};

use crate::offering::is_metadata;
use leg_store::LegDev;
use md_superblock::ArrayState;
use mdc_types::{Event, LegId, NodeId, Outcome, Refusal, Role, Sector, with_leg};
use msg_rounds::SenderPhase;
use world_rounds::{eight, offer};
use world_state::{CoreState, Offer, check, send};

// The node offers to change the superblock.
fn offers_metadata(core: &CoreState, n: NodeId) -> bool
    requires { n < 16 }
    ensures { result ≡ offers is_metadata ((core_of core.now).offer n) }
{
    match core.offers[n as usize] {
        None => false,
        Some(offer) => is_metadata(&offer.wish),
    }
}

// The proposed roles want the leg written.
fn proposes(core: &CoreState, n: NodeId, l: LegId) -> bool
    requires node { n < 16 }
    requires leg { l < 8 }
    ensures { result ≡ proposes ((core_of core.now).offer n) l }
{
    match core.offers[n as usize] {
        None => false,
        Some(offer) => matches!(offer.roles.of(l), Role::Working | Role::Rebuilding),
    }
}

/// The guards of `sb`.
pub fn may_write_super(core: &CoreState, n: NodeId, l: LegId) -> Result<(), Refusal>
    ensures { Judges result (refusal (core_of core.now) (Event.WriteSuper n l)) }
{
    core.check_node(n)?;
    core.check_unfenced(n)?;
    core.check_live(n)?;
    core.check_leg(l)?;
    let has_offered = matches!(core.sender(n).sender_phase(), SenderPhase::Offered);
    core.check_sender(n, has_offered && offers_metadata(core, n))?;
    check(proposes(core, n, l), Refusal::NotTarget(l))
}

// The sector that says what the node proposes.
fn super_sector(core: &CoreState, n: NodeId, l: LegId) -> Sector
    requires accepted { refusal (core_of core.now) (Event.WriteSuper n l) ≡ None }
    requires ready { Ready (core_of core.now) }
    ensures { transfer_of (core_of core.now) (Event.WriteSuper n l)
        ≡ Some (writes_to n l 8 result) }
{
    let Some(offer) = offer(core, n) else {
        unreachable!()
    };
    let state = ArrayState {
        events: offer.events,
        roles: eight(&offer.roles),
        size: offer.size,
    };
    core.identity.write(l, &state)
}

// The leg has the proposed superblock.
fn super_written(core: &mut CoreState, n: NodeId, l: LegId)
    requires accepted { refusal (core_of core.old) (Event.WriteSuper n l) ≡ None }
    requires ready { Ready (core_of core.old) }
    ensures { core_of core.new ≡ super_written (core_of core.old) n l }
{
    let Some(offer) = offer(core, n) else {
        unreachable!()
    };
    let written = with_leg(offer.written, l);
    core.set_offer(n, Some(Offer { written, ..offer }));
}

// The write of the superblock failed: a target is lost unless it is the last, and an offer that
// doesn't reach another leg is void.
fn super_missed(core: &mut CoreState, n: NodeId, l: LegId, v: &Sector) -> Outcome
    requires node { n < nodes_of core.old.identity.geometry }
    requires leg { l < 8 }
    requires transfer { transfer_of (core_of core.old) (Event.WriteSuper n l)
        ≡ Some (writes_to n l 8 v.now) }
    ensures failure { result
        ≡ failure (core_of core.old) (Event.WriteSuper n l) (writes_to n l 8 v.now) }
    ensures after { core_of core.new ≡ after (core_of core.old) (Event.WriteSuper n l) result }
{
    if !core.is_target(n, l) {
        core.void_offer(n);
        return Outcome::Unreached(l);
    }
    if core.is_last(n, l) {
        return Outcome::Io(l);
    }
    core.lose_leg(n, l);
    Outcome::Lost(l)
}

/// The proposed superblock is written to the leg.
pub fn write_super<L: LegDev>(
    core: &mut CoreState,
    legs: &mut Vec<L>,
    n: NodeId,
    l: LegId,
) -> Outcome
    requires accepted { refusal (core_of core.old) (Event.WriteSuper n l) ≡ None }
    requires ready { Ready (core_of core.old) }
    requires fits { Fits (sizes (core_of core.old)) (map L.size legs.old.items) }
    ensures carried { Carries (Event.WriteSuper n l) result
        core.old (seen_of L.contents L.size L.faults L.plan legs.old.items)
        core.new (seen_of L.contents L.size L.faults L.plan legs.new.items) }
{
    let v = super_sector(core, n, l);
    match send(core, legs, n, l, 8, &v) {
        Ok(()) => {
            super_written(core, n, l);
            Outcome::Done
        }
        Err(_) => super_missed(core, n, l, &v),
    }
}
