// An event that helps is one whose guards hold.
ghost use Rattle.std.specs.Prelude.{◌≡◌};
ghost use Rattle.driver_rules.specs.Lines.{allowed};
ghost use Rattle.world_state.specs.Kept.{core_of};
ghost use Rattle.world_state.specs.Ready.{Ready};

use cluster_core::may;
use mdc_types::Event;
use world_state::CoreState;

/// The event, where its guards hold.
pub fn allowed(core: &CoreState, e: Event) -> Option<Event>
    requires { Ready (core_of core.now) }
    ensures { result ≡ allowed (core_of core.now) e }
{
    may(core, &e).is_ok().then_some(e)
}
