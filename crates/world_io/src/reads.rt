// Rows of reads.
ghost use Rattle.std.specs.Prelude.{◌≡◌, ◌<◌, None, Some, IsSome, get_or, map, if◌then◌else◌};
ghost use Rattle.read_balance.specs.Choice.{chosen_leg, nearest_leg};
ghost use Rattle.mdc_types.specs.Geometry.{nodes_of};
ghost use Rattle.leg_failure.specs.Views.{works, is_last};
ghost use Rattle.cluster_model.specs.After.{after};
ghost use Rattle.mirror_io.specs.Flight.{read_in};
ghost use Rattle.cluster_model.specs.Failures.{leg_lost};
ghost use Rattle.cluster_model.specs.State.{sizes};
ghost use Rattle.cluster_model.specs.Outcomes.{outcome_of};
ghost use Rattle.cluster_model.specs.Reads.{reads_first, read_leg, read_sector, end_read, in_done};
ghost use Rattle.cluster_model.specs.Table.{refusal};
ghost use Rattle.world_state.specs.Kept.{core_of};
ghost use Rattle.world_state.specs.Told.{Carries, Fits, seen_of};
ghost use Rattle.world_state.specs.Ready.{Ready};

use crate::changes::{begin_read, end_read, live_read, place_of};
use leg_store::LegDev;
use mdc_types::{Event, LegId, NodeId, Outcome, ReadNo, SectorNo, has_leg};
use mirror_io::LiveRead;
use read_balance::choose;
use world_state::{CoreState, receive};

// Whether all nodes read the first working leg.
fn reads_first(core: &CoreState, n: NodeId, s: SectorNo) -> bool
    requires { n < nodes_of core.now.identity.geometry }
    ensures { result ≡ reads_first (core_of core.now) n s }
{
    core.suspended[n as usize].covers(s).is_some() || core.members.first_pending().is_some()
}

// Where each leg's head stands.
fn heads(core: &CoreState, n: NodeId) -> [u32; 8]
    requires { n < nodes_of core.now.identity.geometry }
    ensures { (λ l. get_or result l 0) ≡ (core_of core.now).head n }
{
    core.heads[n as usize]
}

// The leg that a new read of the sector is given, if one works.
fn chosen_leg(core: &CoreState, n: NodeId, s: SectorNo) -> Option<LegId>
    requires { n < nodes_of core.now.identity.geometry }
    ensures { result ≡ chosen_leg (works ((core_of core.now).view n)) ((core_of core.now).head n) s
        (reads_first (core_of core.now) n s) }
{
    let working = core.view(n).working();
    choose(working, &heads(core, n), s, reads_first(core, n, s))
}

// Whether the node reads from the leg.
fn works(core: &CoreState, n: NodeId, l: LegId) -> bool
    requires node { n < nodes_of core.now.identity.geometry }
    requires leg { l < 8 }
    ensures { result ≡ works ((core_of core.now).view n) l }
{
    has_leg(core.view(n).working(), l)
}

// The leg that works and whose head is nearest to the sector.
fn nearest_leg(core: &CoreState, n: NodeId, s: SectorNo) -> Option<LegId>
    requires { n < nodes_of core.now.identity.geometry }
    ensures { result ≡
        nearest_leg (works ((core_of core.now).view n)) ((core_of core.now).head n) s }
{
    let working = core.view(n).working();
    choose(working, &heads(core, n), s, false)
}

// The leg that a read goes to, if one works.
fn read_leg(core: &CoreState, n: NodeId, r: &LiveRead) -> Option<LegId>
    requires node { n < nodes_of core.now.identity.geometry }
    requires chosen { r.now.chosen < 8 }
    ensures { result ≡ read_leg (core_of core.now) n r.now }
{
    if reads_first(core, n, r.sector) {
        return core.working_leg(n);
    }
    if works(core, n, r.chosen) {
        return Some(r.chosen);
    }
    nearest_leg(core, n, r.sector)
}

// The same for a read that is accepted: an up node has a leg for it.
fn leg_for(core: &CoreState, n: NodeId, k: ReadNo, r: &LiveRead) -> LegId
    requires accepted { refusal (core_of core.now) (Event.In n k) ≡ None }
    requires ready { Ready (core_of core.now) }
    requires live { read_in k ((core_of core.now).reads n) ≡ Some r.now }
    ensures { read_leg (core_of core.now) n r.now ≡ Some result }
{
    match read_leg(core, n, r) {
        Some(l) => l,
        None => unreachable!(),
    }
}

// The leg gave a value, and the read ends.
fn in_done(core: &mut CoreState, n: NodeId, k: ReadNo, l: LegId, s: SectorNo)
    requires node { n < 16 }
    requires leg { l < 8 }
    requires live { IsSome (read_in k ((core_of core.old).reads n)) }
    requires sector { read_sector (read_in k ((core_of core.old).reads n)) ≡ Some s }
    ensures { core_of core.new ≡ in_done (core_of core.old) n k l }
{
    end_read(core, n, k);
    core.set_head(n, l, s);
}

// The leg gave none: it is lost, or it is the last one and the read ends.
fn in_failed(core: &mut CoreState, n: NodeId, k: ReadNo, l: LegId) -> Outcome
    requires node { n < nodes_of core.old.identity.geometry }
    requires leg { l < 8 }
    requires live { IsSome (read_in k ((core_of core.old).reads n)) }
    ensures failure { result ≡
        (if is_last ((core_of core.old).view n) l then Outcome.Io l else Outcome.Lost l) }
    ensures after { core_of core.new ≡
        (if is_last ((core_of core.old).view n) l then end_read (core_of core.old) n k
        else leg_lost (core_of core.old) n l) }
{
    if core.is_last(n, l) {
        end_read(core, n, k);
        return Outcome::Io(l);
    }
    core.lose_leg(n, l);
    Outcome::Lost(l)
}

/// A leg is read, and its value ends the read.
pub fn read_in<L: LegDev>(core: &mut CoreState, legs: &mut Vec<L>, n: NodeId, k: ReadNo) -> Outcome
    requires accepted { refusal (core_of core.old) (Event.In n k) ≡ None }
    requires ready { Ready (core_of core.old) }
    requires fits { Fits (sizes (core_of core.old)) (map L.size legs.old.items) }
    ensures carried { Carries (Event.In n k) result
        core.old (seen_of L.contents L.size L.faults L.plan legs.old.items)
        core.new (seen_of L.contents L.size L.faults L.plan legs.new.items) }
{
    let r = live_read(core, n, k);
    let l = leg_for(core, n, k, &r);
    let at = place_of(core, r.sector);
    match receive(core, legs, n, l, at) {
        Ok(value) => {
            in_done(core, n, k, l, r.sector);
            Outcome::Value { leg: l, value }
        }
        Err(_) => in_failed(core, n, k, l),
    }
}

/// A new read of the sector.
pub fn ask_read(core: &mut CoreState, n: NodeId, s: SectorNo) -> Outcome
    requires accepted { refusal (core_of core.old) (Event.AskRead n s) ≡ None }
    requires ready { Ready (core_of core.old) }
    ensures outcome { result ≡ outcome_of (core_of core.old) (Event.AskRead n s) }
    ensures after { core_of core.new ≡ after (core_of core.old) (Event.AskRead n s) result }
{
    let l = chosen_leg(core, n, s).unwrap_or(0);
    let k = begin_read(core, n, s, l);
    Outcome::Read(k)
}
