// Rows of the lock `resync` and of the passes under it.
ghost use Rattle.std.specs.Prelude.{◌≡◌, None};
ghost use Rattle.cluster_model.specs.Table.{refusal};
ghost use Rattle.cluster_model.specs.After.{after};
ghost use Rattle.cluster_model.specs.Outcomes.{outcome_of};
ghost use Rattle.world_state.specs.Kept.{core_of};
ghost use Rattle.world_state.specs.Ready.{Ready};

use crate::changes;
use mdc_types::{Event, LegId, NodeId, Outcome};
use world_state::CoreState;

/// The node asks for EX on `resync`.
pub fn ask_resync(core: &mut CoreState, n: NodeId) -> Outcome
    requires accepted { refusal (core_of core.old) (Event.AskResync n) ≡ None }
    requires ready { Ready (core_of core.old) }
    ensures outcome { result ≡ outcome_of (core_of core.old) (Event.AskResync n) }
    ensures after { core_of core.new ≡ after (core_of core.old) (Event.AskResync n) result }
{
    changes::ask_lock(core, n);
    changes::asked(core, n);
    Outcome::Done
}

/// A pass begins over the chunks that the node needs.
pub fn pass_own(core: &mut CoreState, n: NodeId) -> Outcome
    requires accepted { refusal (core_of core.old) (Event.PassOwn n) ≡ None }
    requires ready { Ready (core_of core.old) }
    ensures outcome { result ≡ outcome_of (core_of core.old) (Event.PassOwn n) }
    ensures after { core_of core.new ≡ after (core_of core.old) (Event.PassOwn n) result }
{
    changes::begin_own(core, n);
    Outcome::Done
}

/// A pass begins over all chunks, and covers the legs that rebuild.
pub fn pass_full(core: &mut CoreState, n: NodeId) -> Outcome
    requires accepted { refusal (core_of core.old) (Event.PassFull n) ≡ None }
    requires ready { Ready (core_of core.old) }
    ensures outcome { result ≡ outcome_of (core_of core.old) (Event.PassFull n) }
    ensures after { core_of core.new ≡ after (core_of core.old) (Event.PassFull n) result }
{
    changes::begin_full(core, n);
    Outcome::Done
}

/// A pass begins over the gathered chunks, and covers the leg that was added again.
pub fn pass_again(core: &mut CoreState, n: NodeId, l: LegId) -> Outcome
    requires accepted { refusal (core_of core.old) (Event.PassAgain n l) ≡ None }
    requires ready { Ready (core_of core.old) }
    ensures outcome { result ≡ outcome_of (core_of core.old) (Event.PassAgain n l) }
    ensures after { core_of core.new ≡ after (core_of core.old) (Event.PassAgain n l) result }
{
    changes::begin_again(core, n, l);
    Outcome::Done
}

/// The pass ends, and the node lets `resync` go.
pub fn end_pass(core: &mut CoreState, n: NodeId) -> Outcome
    requires accepted { refusal (core_of core.old) (Event.EndPass n) ≡ None }
    requires ready { Ready (core_of core.old) }
    ensures outcome { result ≡ outcome_of (core_of core.old) (Event.EndPass n) }
    ensures after { core_of core.new ≡ after (core_of core.old) (Event.EndPass n) result }
{
    changes::let_go(core, n, 20);
    changes::end_copy(core, n);
    Outcome::Done
}
