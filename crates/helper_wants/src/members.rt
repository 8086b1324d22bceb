// Who is in, and who is the least of them.
ghost use Rattle.std.specs.Prelude.{◌≡◌, ◌<◌};
ghost use Rattle.mdc_types.specs.Geometry.{nodes_of};
ghost use Rattle.cluster_model.specs.Phases.{is_up};
ghost use Rattle.driver_rules.specs.Wants.{least_member, is_least_member};
ghost use Rattle.world_state.specs.Kept.{core_of};

use mdc_types::{NodeId, NodeState};
use world_state::CoreState;

fn is_up(core: &CoreState, n: NodeId) -> bool
    requires { n < nodes_of core.now.identity.geometry }
    ensures { result ≡ is_up ((core_of core.now).state n) }
{
    matches!(core.state(n), NodeState::Up)
}

/// The least node that is up.
pub fn least_member(core: &CoreState) -> Option<NodeId>
    ensures { result ≡ least_member (core_of core.now) }
{
    let nodes = core.identity.geometry.nodes();
    for m in 0..nodes {
        if is_up(core, m) {
            return Some(m);
        }
    }
    None
}

/// Whether the node is the least that is up.
pub fn is_least_member(core: &CoreState, n: NodeId) -> bool
    ensures { result ≡ is_least_member (core_of core.now) n }
{
    match least_member(core) {
        Some(m) => m == n,
        None => false,
    }
}
