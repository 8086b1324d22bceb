// What a node that just holds the lock `resync` begins.
ghost use Rattle.std.specs.Prelude.{◌≡◌, ◌<◌, not, ◌&&◌, is_some, is_none, [], ◌∷◌};
ghost use Rattle.dlm_modes.specs.Guards.{first_of};
ghost use Rattle.mdc_types.specs.Geometry.{nodes_of};
ghost use Rattle.cluster_model.specs.State.{sizes};
ghost use Rattle.cluster_model.specs.Recovering.{pending_heir};
ghost use Rattle.driver_rules.specs.Lines.{beginning, begun_when_held, may_begin, slot_to_begin, is_clean, again_leg, rebuilds, some_pending, needs_copying, allowed, allowed_at, allowed_if};
ghost use Rattle.world_state.specs.Kept.{core_of};
ghost use Rattle.world_state.specs.Ready.{Ready};

use crate::guarded::allowed_if;
use crate::looks::{is_just_held, needs_copying, rebuilds, some_pending};
use disk_addition::Addition;
use helper_rounds::allowed;
use mdc_types::{Event, LegId, NodeId};
use world_repair::{check_heir, looks};
use world_state::CoreState;

fn has_idle_heir(core: &CoreState, d: NodeId) -> bool
    requires { d < nodes_of (sizes (core_of core.now)) }
    ensures { result ≡ is_none (pending_heir (core_of core.now).members
        ((core_of core.now).members.heir d)) }
{
    check_heir(core, d).is_ok()
}

fn is_pending(core: &CoreState, d: NodeId) -> bool
    requires { d < 16 }
    ensures { result ≡ (core_of core.now).members.pending d }
{
    core.members.pending(d)
}

// The slot is pending, and its heir isn't.
fn may_begin(core: &CoreState, d: NodeId) -> bool
    requires { d < nodes_of (sizes (core_of core.now)) }
    ensures { result ≡ may_begin (core_of core.now) d }
{
    is_pending(core, d) && has_idle_heir(core, d)
}

fn node_count(core: &CoreState) -> NodeId
    ensures { result ≡ nodes_of (sizes (core_of core.now)) }
{
    core.identity.geometry.nodes()
}

/// The first slot that is pending, and whose heir isn't.
pub fn slot_to_begin(core: &CoreState) -> Option<NodeId>
    ensures { result ≡ slot_to_begin (core_of core.now) }
{
    let nodes = node_count(core);
    for d in 0..nodes {
        if may_begin(core, d) {
            return Some(d);
        }
    }
    None
}

fn recovers(core: &CoreState, n: NodeId) -> bool
    requires { n < nodes_of (sizes (core_of core.now)) }
    ensures { result ≡ is_some ((core_of core.now).recovery n) }
{
    looks::slot(core, n).is_some()
}

// All pages of the slot were read, and are clean.
#[tactic(auto, using(crate::proofs::Looking::none_is))]
fn is_clean(core: &CoreState, n: NodeId) -> bool
    requires { n < nodes_of (sizes (core_of core.now)) }
    ensures { result ≡ is_clean (core_of core.now) n }
{
    recovers(core, n) && looks::unread(core, n).is_none() && looks::uncleared(core, n).is_none()
}

fn again_leg(addition: Addition) -> Option<LegId>
    ensures { result ≡ again_leg addition }
{
    match addition {
        Addition::Again(l) => Some(l),
        _ => None,
    }
}

// The leg that was added again.
fn leg_again(core: &CoreState, n: NodeId) -> Option<LegId>
    requires { n < nodes_of (sizes (core_of core.now)) }
    ensures { result ≡ again_leg ((core_of core.now).adding n).addition }
{
    again_leg(core.additions.addition(n))
}

fn recover(core: &CoreState, n: NodeId) -> Option<Event>
    requires { Ready (core_of core.now) }
    ensures { result ≡ allowed_at (core_of core.now) (Event.Recover n)
        (slot_to_begin (core_of core.now)) }
{
    let d = slot_to_begin(core)?;
    allowed(core, Event::Recover(n, d))
}

fn pass_again(core: &CoreState, n: NodeId) -> Option<Event>
    requires ready { Ready (core_of core.now) }
    requires node { n < nodes_of (sizes (core_of core.now)) }
    ensures { result ≡ allowed_at (core_of core.now) (Event.PassAgain n)
        (again_leg ((core_of core.now).adding n).addition) }
{
    let l = leg_again(core, n)?;
    allowed(core, Event::PassAgain(n, l))
}

fn pass_when_clean(core: &CoreState, n: NodeId) -> Option<Event>
    requires ready { Ready (core_of core.now) }
    requires node { n < nodes_of (sizes (core_of core.now)) }
    ensures { result ≡ allowed_if (core_of core.now) (is_clean (core_of core.now) n)
        (Event.PassOwn n) }
{
    allowed_if(core, is_clean(core, n), Event::PassOwn(n))
}

fn pass_full(core: &CoreState, n: NodeId) -> Option<Event>
    requires ready { Ready (core_of core.now) }
    requires node { n < nodes_of (sizes (core_of core.now)) }
    ensures { result ≡ allowed_if (core_of core.now) (rebuilds (core_of core.now) n
        && not (some_pending (core_of core.now))) (Event.PassFull n) }
{
    let is_due = rebuilds(core, n) && !some_pending(core);
    allowed_if(core, is_due, Event::PassFull(n))
}

fn pass_own(core: &CoreState, n: NodeId) -> Option<Event>
    requires ready { Ready (core_of core.now) }
    requires node { n < nodes_of (sizes (core_of core.now)) }
    ensures { result ≡ allowed_if (core_of core.now) (needs_copying (core_of core.now) n)
        (Event.PassOwn n) }
{
    allowed_if(core, needs_copying(core, n), Event::PassOwn(n))
}

// The last three alternatives: the passes of a node that neither recovers nor gathers.
fn passing(core: &CoreState, n: NodeId) -> Option<Event>
    requires ready { Ready (core_of core.now) }
    requires node { n < nodes_of (sizes (core_of core.now)) }
    ensures { result ≡ first_of (
        allowed_at (core_of core.now) (Event.PassAgain n)
        (again_leg ((core_of core.now).adding n).addition)
        ∷ allowed_if (core_of core.now) (rebuilds (core_of core.now) n
        && not (some_pending (core_of core.now))) (Event.PassFull n)
        ∷ allowed_if (core_of core.now) (needs_copying (core_of core.now) n) (Event.PassOwn n)
        ∷ []) }
{
    pass_again(core, n)
        .or_else(|| pass_full(core, n))
        .or_else(|| pass_own(core, n))
}

fn begun_when_held(core: &CoreState, n: NodeId) -> Option<Event>
    requires ready { Ready (core_of core.now) }
    requires node { n < nodes_of (sizes (core_of core.now)) }
    ensures { result ≡ begun_when_held (core_of core.now) n }
{
    recover(core, n)
        .or_else(|| pass_when_clean(core, n))
        .or_else(|| allowed(core, Event::Gather(n)))
        .or_else(|| passing(core, n))
}

/// A node that just holds the lock begins to recover a slot, gathers, or begins a pass.
pub fn beginning(core: &CoreState, n: NodeId) -> Option<Event>
    requires ready { Ready (core_of core.now) }
    requires node { n < nodes_of (sizes (core_of core.now)) }
    ensures { result ≡ beginning (core_of core.now) n }
{
    if is_just_held(core, n) {
        begun_when_held(core, n)
    } else {
        None
    }
}
