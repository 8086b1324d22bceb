// The sector that the node copies.
ghost use Rattle.std.specs.Prelude.{◌≡◌, ◌<◌};
ghost use Rattle.mdc_types.specs.Geometry.{nodes_of};
ghost use Rattle.cluster_model.specs.State.{sizes};
ghost use Rattle.cluster_model.specs.Copying.{uncopied_target, buffer_of};
ghost use Rattle.driver_rules.specs.Lines.{copying, allowed_at};
ghost use Rattle.world_state.specs.Kept.{core_of};
ghost use Rattle.world_state.specs.Ready.{Ready};

use helper_rounds::allowed;
use mdc_types::{Event, NodeId};
use world_repair::looks::uncopied;
use world_state::CoreState;

fn copy_out(core: &CoreState, n: NodeId) -> Option<Event>
    requires ready { Ready (core_of core.now) }
    requires node { n < nodes_of (sizes (core_of core.now)) }
    ensures { result ≡ allowed_at (core_of core.now) (Event.CopyOut n)
        (uncopied_target (core_of core.now) n (buffer_of (core_of core.now) n)) }
{
    let l = uncopied(core, n)?;
    allowed(core, Event::CopyOut(n, l))
}

/// The next sector is read, or written to a target that doesn't have it, or settled.
pub fn copying(core: &CoreState, n: NodeId) -> Option<Event>
    requires ready { Ready (core_of core.now) }
    requires node { n < nodes_of (sizes (core_of core.now)) }
    ensures { result ≡ copying (core_of core.now) n }
{
    allowed(core, Event::CopyIn(n))
        .or_else(|| copy_out(core, n))
        .or_else(|| allowed(core, Event::Settle(n)))
}
