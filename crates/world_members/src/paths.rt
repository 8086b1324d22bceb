ghost use Rattle.std.specs.Prelude.{◌≡◌, None};
ghost use Rattle.cluster_model.specs.After.{after};
ghost use Rattle.cluster_model.specs.Outcomes.{outcome_of};
ghost use Rattle.cluster_model.specs.Table.{refusal};
ghost use Rattle.world_state.specs.Kept.{Judges, core_of};
ghost use Rattle.world_state.specs.Ready.{Ready};

use mdc_types::{Event, LegId, NodeId, Outcome, Refusal};
use world_state::CoreState;

/// The guards of `cut n l`.
pub fn may_cut(core: &CoreState, n: NodeId, l: LegId) -> Result<(), Refusal>
    ensures { Judges result (refusal (core_of core.now) (Event.Cut n l)) }
{
    core.check_node(n)?;
    core.check_leg(l)
}

/// The node's path to the leg is cut.
pub fn cut(core: &mut CoreState, n: NodeId, l: LegId) -> Outcome
    requires accepted { refusal (core_of core.old) (Event.Cut n l) ≡ None }
    requires ready { Ready (core_of core.old) }
    ensures outcome { result ≡ outcome_of (core_of core.old) (Event.Cut n l) }
    ensures after { core_of core.new ≡ after (core_of core.old) (Event.Cut n l) result }
{
    core.paths.cut(n, l);
    Outcome::Done
}

/// The guards of `mend n l`.
pub fn may_mend(core: &CoreState, n: NodeId, l: LegId) -> Result<(), Refusal>
    ensures { Judges result (refusal (core_of core.now) (Event.Mend n l)) }
{
    core.check_node(n)?;
    core.check_leg(l)
}

/// The node's path to the leg is open again.
pub fn mend(core: &mut CoreState, n: NodeId, l: LegId) -> Outcome
    requires accepted { refusal (core_of core.old) (Event.Mend n l) ≡ None }
    requires ready { Ready (core_of core.old) }
    ensures outcome { result ≡ outcome_of (core_of core.old) (Event.Mend n l) }
    ensures after { core_of core.new ≡ after (core_of core.old) (Event.Mend n l) result }
{
    core.paths.mend(n, l);
    Outcome::Done
}
