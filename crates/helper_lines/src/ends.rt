// The end of a pass, and the lock under which nodes copy.
ghost use Rattle.std.specs.Prelude.{◌≡◌, ◌<◌, is_none, ◌&&◌};
ghost use Rattle.mdc_types.specs.Geometry.{nodes_of};
ghost use Rattle.cluster_model.specs.State.{sizes};
ghost use Rattle.cluster_model.specs.Phases.{has_pass, copy_word};
ghost use Rattle.driver_rules.specs.Wants.{todo_chunk, covered_leg};
ghost use Rattle.driver_rules.specs.Lines.{ending, is_over, is_idle, turning, wants_to_copy};
ghost use Rattle.world_state.specs.Kept.{core_of};
ghost use Rattle.world_state.specs.Ready.{Ready};

use crate::beginning;
use crate::guarded::allowed_if;
use crate::looks::{is_just_held, needs_copying, rebuilds, some_pending};
use helper_wants::{covered_leg, is_least_member, todo_chunk};
use mdc_types::{Event, NodeId, Word};
use world_repair::looks;
use world_state::CoreState;

fn has_pass(core: &CoreState, n: NodeId) -> bool
    requires { n < nodes_of (sizes (core_of core.now)) }
    ensures { result ≡ has_pass (copy_word ((core_of core.now).copy n)) }
{
    matches!(
        core.copies.word(n),
        Word::Pass | Word::Window | Word::Buffer
    )
}

fn recovers_nothing(core: &CoreState, n: NodeId) -> bool
    requires { n < nodes_of (sizes (core_of core.now)) }
    ensures { result ≡ is_none ((core_of core.now).recovery n) }
{
    looks::slot(core, n).is_none()
}

// Nothing is left of the pass.
#[tactic(auto, using(crate::proofs::Looking::none_is))]
fn is_over(core: &CoreState, n: NodeId) -> bool
    requires { n < nodes_of (sizes (core_of core.now)) }
    ensures { result ≡ is_over (core_of core.now) n }
{
    has_pass(core, n)
        && todo_chunk(core, n).is_none()
        && covered_leg(core, n).is_none()
        && recovers_nothing(core, n)
}

// The node holds the lock, and has nothing to begin.
#[tactic(auto, using(crate::proofs::Looking::none_is))]
fn is_idle(core: &CoreState, n: NodeId) -> bool
    requires ready { Ready (core_of core.now) }
    requires node { n < nodes_of (sizes (core_of core.now)) }
    ensures { result ≡ is_idle (core_of core.now) n }
{
    is_just_held(core, n) && beginning(core, n).is_none()
}

/// The pass ends of which nothing is left, or the lock is let go under which there is nothing to begin.
pub fn ending(core: &CoreState, n: NodeId) -> Option<Event>
    requires ready { Ready (core_of core.now) }
    requires node { n < nodes_of (sizes (core_of core.now)) }
    ensures { result ≡ ending (core_of core.now) n }
{
    let is_due = is_over(core, n) || is_idle(core, n);
    allowed_if(core, is_due, Event::EndPass(n))
}

fn wants_to_copy(core: &CoreState, n: NodeId) -> bool
    requires { n < nodes_of (sizes (core_of core.now)) }
    ensures { result ≡ wants_to_copy (core_of core.now) n }
{
    needs_copying(core, n)
        || (is_least_member(core, n) && (some_pending(core) || rebuilds(core, n)))
}

/// A node that wants to copy asks for the lock.
pub fn turning(core: &CoreState, n: NodeId) -> Option<Event>
    requires ready { Ready (core_of core.now) }
    requires node { n < nodes_of (sizes (core_of core.now)) }
    ensures { result ≡ turning (core_of core.now) n }
{
    allowed_if(core, wants_to_copy(core, n), Event::AskResync(n))
}
