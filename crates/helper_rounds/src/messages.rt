// A message that was sent to the node.
ghost use Rattle.std.specs.Prelude.{◌≡◌};
ghost use Rattle.cluster_model.specs.Table.{refusal};
ghost use Rattle.driver_rules.specs.Lines.{broken_for, receiving};
ghost use Rattle.world_state.specs.Kept.{core_of};
ghost use Rattle.world_state.specs.Ready.{Ready};

use crate::allowed;
use cluster_core::may;
use mdc_types::{Event, NodeId, Refusal};
use world_state::CoreState;

// The write that `processed` waits for ends, where a loss holds it up.
fn breaking(core: &CoreState, n: NodeId) -> Option<Event>
    requires { Ready (core_of core.now) }
    ensures { result ≡ broken_for (core_of core.now) n
        (refusal (core_of core.now) (Event.Processed n)) }
{
    match may(core, &Event::Processed(n)) {
        Err(Refusal::Draining(k)) => allowed(core, Event::BreakWrite(n, k)),
        _ => None,
    }
}

/// The node goes on with a message that was sent to it. Where it can't process the message, a write that a
/// loss holds up ends.
pub fn receiving(core: &CoreState, n: NodeId) -> Option<Event>
    requires { Ready (core_of core.now) }
    ensures { result ≡ receiving (core_of core.now) n }
{
    allowed(core, Event::Resume(n))
        .or_else(|| allowed(core, Event::Processed(n)))
        .or_else(|| allowed(core, Event::DropMessage(n)))
        .or_else(|| breaking(core, n))
        .or_else(|| allowed(core, Event::Take(n)))
}
