// The pages of the node's slot.
ghost use Rattle.std.specs.Prelude.{◌≡◌, ◌<◌};
ghost use Rattle.mdc_types.specs.Bits.{has_bit};
ghost use Rattle.mdc_types.specs.Geometry.{nodes_of};
ghost use Rattle.leg_failure.specs.Views.{is_target};
ghost use Rattle.node_bitmaps.specs.Bitmap.{first_unmarked, first_old};
ghost use Rattle.cluster_model.specs.State.{sizes};
ghost use Rattle.driver_rules.specs.Lines.{marking, allowed_at, of_page};
ghost use Rattle.world_state.specs.Kept.{core_of};
ghost use Rattle.world_state.specs.Ready.{Ready};

use helper_rounds::allowed;
use mdc_types::{Event, LegId, NodeId, PageNo};
use world_repair::looks::targets;
use world_state::CoreState;

fn unmarked_on(core: &CoreState, n: NodeId, legs: u8) -> Option<(PageNo, LegId)>
    requires { n < 16 }
    ensures { result ≡ first_unmarked (sizes (core_of core.now)) ((core_of core.now).bitmap n)
        (has_bit legs) }
{
    core.bitmaps.first_unmarked(n, legs)
}

/// The first page with a set chunk that has no mark on a target, and the least such leg.
pub fn unmarked(core: &CoreState, n: NodeId) -> Option<(PageNo, LegId)>
    requires { n < nodes_of (sizes (core_of core.now)) }
    ensures { result ≡ first_unmarked (sizes (core_of core.now)) ((core_of core.now).bitmap n)
        (is_target ((core_of core.now).view n)) }
{
    unmarked_on(core, n, targets(core, n))
}

fn old_on(core: &CoreState, n: NodeId, legs: u8) -> Option<(PageNo, LegId)>
    requires { n < 16 }
    ensures { result ≡ first_old (sizes (core_of core.now)) ((core_of core.now).bitmap n)
        (has_bit legs) }
{
    core.bitmaps.first_old(n, legs)
}

/// The first page that isn't fresh on a target, and the least such leg.
pub fn old(core: &CoreState, n: NodeId) -> Option<(PageNo, LegId)>
    requires { n < nodes_of (sizes (core_of core.now)) }
    ensures { result ≡ first_old (sizes (core_of core.now)) ((core_of core.now).bitmap n)
        (is_target ((core_of core.now).view n)) }
{
    old_on(core, n, targets(core, n))
}

/// The first page with a set chunk that has no mark on a target is written there.
pub fn marking(core: &CoreState, n: NodeId) -> Option<Event>
    requires ready { Ready (core_of core.now) }
    requires node { n < nodes_of (sizes (core_of core.now)) }
    ensures { result ≡ marking (core_of core.now) n }
{
    let (p, l) = unmarked(core, n)?;
    allowed(core, Event::WritePage(n, p, l))
}

/// The first page that isn't fresh on a target is written there.
pub fn freshening(core: &CoreState, n: NodeId) -> Option<Event>
    requires ready { Ready (core_of core.now) }
    requires node { n < nodes_of (sizes (core_of core.now)) }
    ensures { result ≡ allowed_at (core_of core.now) (of_page (Event.WritePage n))
        (first_old (sizes (core_of core.now)) ((core_of core.now).bitmap n)
        (is_target ((core_of core.now).view n))) }
{
    let (p, l) = old(core, n)?;
    allowed(core, Event::WritePage(n, p, l))
}
