// A lock that the node waits for.
ghost use Rattle.std.specs.Prelude.{◌≡◌};
ghost use Rattle.driver_rules.specs.Lines.{heads, headed_by, granting};
ghost use Rattle.world_state.specs.Kept.{core_of};
ghost use Rattle.world_state.specs.Ready.{Ready};

use crate::allowed;
use mdc_types::{Event, NodeId, Res};
use world_rounds::asker;
use world_state::CoreState;

// The node is the first that waits for the resource.
fn heads(core: &CoreState, n: NodeId, res: Res) -> bool
    ensures { result ≡ heads (core_of core.now) n res }
{
    match asker(core, res) {
        Some((m, _)) => m == n,
        None => false,
    }
}

// The first resource that the node is the first to wait for.
fn headed_by(core: &CoreState, n: NodeId) -> Option<Res>
    ensures { result ≡ headed_by (core_of core.now) n }
{
    if heads(core, n, Res::Token) {
        Some(Res::Token)
    } else if heads(core, n, Res::Message) {
        Some(Res::Message)
    } else if heads(core, n, Res::Ack) {
        Some(Res::Ack)
    } else if heads(core, n, Res::Resync) {
        Some(Res::Resync)
    } else {
        None
    }
}

/// The node gets the lock that it waits for: of the first resource of `token`, `message`, `ack` and
/// `resync` where it is the first to wait.
pub fn granting(core: &CoreState, n: NodeId) -> Option<Event>
    requires { Ready (core_of core.now) }
    ensures { result ≡ granting (core_of core.now) n }
{
    let res = headed_by(core, n)?;
    allowed(core, Event::Grant(res))
}
