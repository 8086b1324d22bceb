// The superblocks that a joining node reads.
ghost use Rattle.std.specs.Prelude.{◌≡◌, ◌<◌, [], ◌∷◌};
ghost use Rattle.mdc_types.specs.Geometry.{nodes_of};
ghost use Rattle.cluster_model.specs.State.{sizes};
ghost use Rattle.driver_rules.specs.Lines.{allowed_at, untried_leg, joining};
ghost use Rattle.world_state.specs.Kept.{core_of};
ghost use Rattle.world_state.specs.Ready.{Ready};

use crate::allowed;
use mdc_types::{Event, LegId, NodeId};
use world_members::first_untried;
use world_state::CoreState;

// The first leg whose superblock the node didn't try to read.
fn untried_leg(core: &CoreState, n: NodeId) -> Option<LegId>
    requires { n < nodes_of (sizes (core_of core.now)) }
    ensures { result ≡ untried_leg (core_of core.now) n }
{
    first_untried(&core.tried[n as usize], core.identity.geometry.legs())
}

fn loading(core: &CoreState, n: NodeId) -> Option<Event>
    requires ready { Ready (core_of core.now) }
    requires node { n < nodes_of (sizes (core_of core.now)) }
    ensures { result ≡ allowed_at (core_of core.now) (Event.Load n) (untried_leg (core_of core.now) n) }
{
    let l = untried_leg(core, n)?;
    allowed(core, Event::Load(n, l))
}

/// A joining node reads the first superblock that it didn't try yet, and takes the newest.
pub fn joining(core: &CoreState, n: NodeId) -> Option<Event>
    requires ready { Ready (core_of core.now) }
    requires node { n < nodes_of (sizes (core_of core.now)) }
    ensures { result ≡ joining (core_of core.now) n }
{
    loading(core, n).or_else(|| allowed(core, Event::Up(n)))
}
