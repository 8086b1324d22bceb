// Events that need a condition beside their guards.
ghost use Rattle.std.specs.Prelude.{◌≡◌};
ghost use Rattle.driver_rules.specs.Lines.{allowed_if};
ghost use Rattle.world_state.specs.Kept.{core_of};
ghost use Rattle.world_state.specs.Ready.{Ready};

use helper_rounds::allowed;
use mdc_types::Event;
use world_state::CoreState;

/// The event, where the condition and its guards hold.
pub fn allowed_if(core: &CoreState, holds: bool, e: Event) -> Option<Event>
    requires { Ready (core_of core.now) }
    ensures { result ≡ allowed_if (core_of core.now) holds e }
{
    if holds { allowed(core, e) } else { None }
}
