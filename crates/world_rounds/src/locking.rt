// `lockdev`: EX on `no-new-dev`.
ghost use Rattle.std.specs.Prelude.{◌≡◌, ◌<◌, None};
ghost use Rattle.mdc_types.specs.Geometry.{nodes_of};
ghost use Rattle.cluster_model.specs.Changes.{no_new_dev};
ghost use Rattle.cluster_model.specs.Guards.{refused_by};
ghost use Rattle.cluster_model.specs.Phases.{addition_is};
ghost use Rattle.cluster_model.specs.Table.{refusal};
ghost use Rattle.cluster_model.specs.After.{after};
ghost use Rattle.cluster_model.specs.Outcomes.{outcome_of};
ghost use Rattle.dlm_space.specs.Locks.{blocker};
ghost use Rattle.world_state.specs.Kept.{core_of, Judges};
ghost use Rattle.world_state.specs.Ready.{Ready};

use crate::tables;
use disk_addition::Addition;
use dlm_modes::Mode;
use mdc_types::{Event, NodeId, Outcome, Part, Refusal, Res};
use msg_rounds::SenderPhase;
use world_state::{CoreState, check};

// Refuses the addition's phase where it isn't right.
fn check_addition(core: &CoreState, n: NodeId, right: bool) -> Result<(), Refusal>
    requires { n < nodes_of core.now.identity.geometry }
    ensures { Judges result (addition_is (core_of core.now) n right) }
{
    let word = core.additions.addition(n).word();
    check(right, Refusal::NotPhase(Part::Addition, word))
}

// Refuses where another node holds `no-new-dev`.
fn check_device(core: &CoreState, n: NodeId) -> Result<(), Refusal>
    ensures { Judges result (refused_by Refusal.Blocked (blocker
        ((core_of core.now).locks no_new_dev) n Mode.EX)) }
{
    match core.space.blocker(Res::NoNewDev.number(), n, Mode::EX) {
        None => Ok(()),
        Some(m) => Err(Refusal::Blocked(m)),
    }
}

/// The guards of `lockdev`.
pub fn may_lock_device(core: &CoreState, n: NodeId) -> Result<(), Refusal>
    ensures { Judges result (refusal (core_of core.now) (Event.LockDevice n)) }
{
    core.check_node(n)?;
    core.check_unfenced(n)?;
    core.check_live(n)?;
    core.check_up(n)?;
    let phase = core.sender(n).sender_phase();
    let has_lock = matches!(phase, SenderPhase::TokenHeld | SenderPhase::MessageHeld);
    core.check_sender(n, has_lock)?;
    let is_announced = matches!(core.additions.addition(n), Addition::Announced(_));
    check_addition(core, n, is_announced)?;
    check_device(core, n)
}

/// The node takes EX on `no-new-dev`, by a conversion where it holds it.
pub fn lock_device(core: &mut CoreState, n: NodeId) -> Outcome
    requires accepted { refusal (core_of core.old) (Event.LockDevice n) ≡ None }
    requires ready { Ready (core_of core.old) }
    ensures outcome { result ≡ outcome_of (core_of core.old) (Event.LockDevice n) }
    ensures after { core_of core.new ≡ after (core_of core.old) (Event.LockDevice n) result }
{
    tables::lock_device(&mut core.space, n);
    Outcome::Done
}
