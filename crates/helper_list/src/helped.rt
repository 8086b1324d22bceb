// Whom to help next.
ghost use Rattle.std.specs.Prelude.{◌≡◌, ◌<◌, None, if◌then◌else◌};
ghost use Rattle.mdc_types.specs.Geometry.{nodes_of};
ghost use Rattle.cluster_model.specs.State.{sizes};
ghost use Rattle.driver_rules.specs.Helpers.{first_enabled, is_live, next_help};
ghost use Rattle.world_state.specs.Kept.{core_of};
ghost use Rattle.world_state.specs.Ready.{Ready};

use crate::first_enabled;
use mdc_types::{Event, NodeId, NodeState};
use world_state::CoreState;

/// Whether the node is joining, loaded or up.
pub fn is_live(core: &CoreState, n: NodeId) -> bool
    requires { n < nodes_of (sizes (core_of core.now)) }
    ensures { result ≡ is_live (core_of core.now) n }
{
    !matches!(core.state(n), NodeState::Out)
}

// The first helping event of a live node.
fn help_of(core: &CoreState, n: NodeId) -> Option<Event>
    requires ready { Ready (core_of core.now) }
    requires node { n < nodes_of (sizes (core_of core.now)) }
    ensures { result ≡ (if is_live (core_of core.now) n
        then first_enabled (core_of core.now) n else None) }
{
    if is_live(core, n) {
        first_enabled(core, n)
    } else {
        None
    }
}

fn node_count(core: &CoreState) -> NodeId
    ensures { result ≡ nodes_of (sizes (core_of core.now)) }
{
    core.identity.geometry.nodes()
}

/// The first helping event of the least live node that has one. Nodes and lines after it aren't looked at.
pub fn next_help(core: &CoreState) -> Option<Event>
    requires { Ready (core_of core.now) }
    ensures { result ≡ next_help (core_of core.now) }
{
    let nodes = node_count(core);
    for n in 0..nodes {
        if let Some(e) = help_of(core, n) {
            return Some(e);
        }
    }
    None
}
