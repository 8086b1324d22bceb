// The node's own round: its locks, and what it says.
ghost use Rattle.std.specs.Prelude.{◌≡◌, ◌<◌, not, ◌&&◌, is_some, is_none, [], ◌∷◌};
ghost use Rattle.dlm_modes.specs.Guards.{first_of};
ghost use Rattle.mdc_types.specs.Geometry.{nodes_of};
ghost use Rattle.cluster_model.specs.State.{sizes};
ghost use Rattle.cluster_model.specs.Wishes.{holds_device_lock};
ghost use Rattle.msg_rounds.specs.Refusals.{is_token_held, is_message_held};
ghost use Rattle.driver_rules.specs.Wants.{want};
ghost use Rattle.driver_rules.specs.Lines.{allowed_at, allowed_if, unwritten, sending, asking};
ghost use Rattle.world_state.specs.Kept.{core_of};
ghost use Rattle.world_state.specs.Ready.{Ready};

use crate::allowed;
use helper_wants::want;
use mdc_types::{Event, LegId, NodeId};
use msg_rounds::SenderPhase;
use world_rounds::{offer, unwritten_leg};
use world_state::CoreState;
use world_wishes::holds_device_lock;

// The first leg that the node's offer wants written and that doesn't have the superblock.
fn unwritten(core: &CoreState, n: NodeId) -> Option<LegId>
    requires { n < nodes_of (sizes (core_of core.now)) }
    ensures { result ≡ unwritten (core_of core.now) n }
{
    let offer = offer(core, n)?;
    unwritten_leg(&offer)
}

fn writing_super(core: &CoreState, n: NodeId) -> Option<Event>
    requires ready { Ready (core_of core.now) }
    requires node { n < nodes_of (sizes (core_of core.now)) }
    ensures { result ≡ allowed_at (core_of core.now) (Event.WriteSuper n)
        (unwritten (core_of core.now) n) }
{
    let l = unwritten(core, n)?;
    allowed(core, Event::WriteSuper(n, l))
}

// What the node wants to tell is offered, and the round is given up where it wants nothing.
fn offering(core: &CoreState, n: NodeId) -> Option<Event>
    requires ready { Ready (core_of core.now) }
    requires node { n < nodes_of (sizes (core_of core.now)) }
    ensures { result ≡ first_of (
        allowed_at (core_of core.now) (Event.Offer n) (want (core_of core.now) n)
        ∷ allowed_if (core_of core.now) (is_message_held ((core_of core.now).sender n)
        && is_none (want (core_of core.now) n)) (Event.Quit n)
        ∷ []) }
{
    match want(core, n) {
        Some(wish) => allowed(core, Event::Offer(n, wish)),
        None if matches!(core.sender(n).sender_phase(), SenderPhase::MessageHeld) => {
            allowed(core, Event::Quit(n))
        }
        None => None,
    }
}

/// The node's own round goes on, from its offer to its end.
pub fn sending(core: &CoreState, n: NodeId) -> Option<Event>
    requires ready { Ready (core_of core.now) }
    requires node { n < nodes_of (sizes (core_of core.now)) }
    ensures { result ≡ sending (core_of core.now) n }
{
    allowed(core, Event::FinishRound(n))
        .or_else(|| writing_super(core, n))
        .or_else(|| allowed(core, Event::Publish(n)))
        .or_else(|| offering(core, n))
}

// New devices are locked out, where the node doesn't do so yet.
fn locking_devices(core: &CoreState, n: NodeId) -> Option<Event>
    requires ready { Ready (core_of core.now) }
    requires node { n < nodes_of (sizes (core_of core.now)) }
    ensures { result ≡ allowed_if (core_of core.now)
        (not (holds_device_lock (core_of core.now) n)) (Event.LockDevice n) }
{
    if holds_device_lock(core, n) {
        None
    } else {
        allowed(core, Event::LockDevice(n))
    }
}

// What the node wants to tell needs the message lock and the token before it. A token without such a wish is
// given up.
fn asking_locks(core: &CoreState, n: NodeId) -> Option<Event>
    requires ready { Ready (core_of core.now) }
    requires node { n < nodes_of (sizes (core_of core.now)) }
    ensures { result ≡ first_of (
        allowed_if (core_of core.now) (is_some (want (core_of core.now) n)) (Event.AskMessage n)
        ∷ allowed_if (core_of core.now) (is_token_held ((core_of core.now).sender n)
        && is_none (want (core_of core.now) n)) (Event.Quit n)
        ∷ allowed_if (core_of core.now) (is_some (want (core_of core.now) n)) (Event.AskToken n)
        ∷ []) }
{
    if want(core, n).is_some() {
        allowed(core, Event::AskMessage(n)).or_else(|| allowed(core, Event::AskToken(n)))
    } else if matches!(core.sender(n).sender_phase(), SenderPhase::TokenHeld) {
        allowed(core, Event::Quit(n))
    } else {
        None
    }
}

/// The node gets the locks of its own round, or gives the token up where it wants nothing.
pub fn asking(core: &CoreState, n: NodeId) -> Option<Event>
    requires ready { Ready (core_of core.now) }
    requires node { n < nodes_of (sizes (core_of core.now)) }
    ensures { result ≡ asking (core_of core.now) n }
{
    locking_devices(core, n).or_else(|| asking_locks(core, n))
}
