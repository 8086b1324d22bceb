ghost use Rattle.std.specs.Prelude.{◌≡◌, ◌<◌, true, is_none, [], IfSome, None};
ghost use Rattle.dlm_modes.specs.Guards.{first_of};
ghost use Rattle.dlm_modes.specs.declared.mode.Mode.TheVariants.{CR};
ghost use Rattle.dlm_space.specs.Locks.{ask_now_refusal};
ghost use Rattle.mdc_types.specs.Geometry.{nodes_of};
ghost use Rattle.mdc_types.specs.Roles.{role_of};
ghost use Rattle.cluster_msgs.specs.Messages.{IsBody, IsInRange};
ghost use Rattle.leg_failure.specs.Views.{view_of, taken};
ghost use Rattle.cluster_model.specs.After.{after};
ghost use Rattle.cluster_model.specs.Changes.{no_new_dev};
ghost use Rattle.cluster_model.specs.Outcomes.{outcome_of};
ghost use Rattle.cluster_model.specs.Processing.{draining_by, take_roles, see_device, do_body};
ghost use Rattle.cluster_model.specs.Processing.{do_message};
ghost use Rattle.cluster_model.specs.Table.{refusal};
ghost use Rattle.world_state.specs.Kept.{Judges, core_of};
ghost use Rattle.world_state.specs.Ready.{Ready};

use crate::changes;
use crate::receiving::has_taken;
use cluster_msgs::Body;
use leg_failure::View;
use mdc_types::{Event, LegId, NodeId, Outcome, Refusal, Roles};
use world_state::{CoreState, check};

// No live write of the node is in a range that the message suspends.
fn check_drained(core: &CoreState, n: NodeId) -> Result<(), Refusal>
    requires { n < nodes_of core.now.identity.geometry }
    ensures { Judges result
        (first_of (draining_by (core_of core.now) n ((core_of core.now).heard n))) }
{
    if let Some(m) = &core.heard[n as usize]
        && let Body::Resyncing(r) = m.body
        && let Some(k) = core.requests.drain(n, r)
    {
        return Err(Refusal::Draining(k));
    }
    Ok(())
}

/// The guards of `processed n`.
pub fn may_processed(core: &CoreState, n: NodeId) -> Result<(), Refusal>
    ensures { Judges result (refusal (core_of core.now) (Event.Processed n)) }
{
    core.check_node(n)?;
    core.check_unfenced(n)?;
    core.check_live(n)?;
    core.check_receiver(n, has_taken(core, n))?;
    let receiver = core.receiver(n);
    check(!receiver.is_gone(), Refusal::SenderGone(receiver.sender()))?;
    check_drained(core, n)
}

// The node's view with the roles and the size of a message.
fn view_taken(core: &CoreState, n: NodeId, roles: &Roles, size: u32) -> View
    requires { n < 16 }
    ensures { view_of result ≡ taken ((core_of core.now).view n) (role_of roles.now) size }
{
    let mut view = core.views[n as usize];
    view.take(roles, size);
    view
}

// The node takes the roles and the size.
fn take_roles(core: &mut CoreState, n: NodeId, roles: &Roles, size: u32)
    requires node { n < 16 }
    requires may { is_none (((core_of core.old).locks no_new_dev).held n) ≡ true
        → ask_now_refusal ((core_of core.old).locks no_new_dev) n CR ≡ None }
    ensures { core_of core.new ≡ take_roles (core_of core.old) n roles.now size }
{
    let view = view_taken(core, n, roles, size);
    changes::keep_device(core, n);
    core.set_view(n, view);
    changes::end_addition(core, n);
}

// Who sees the new device lets go of `no-new-dev`.
fn see_device(core: &mut CoreState, n: NodeId, l: LegId)
    requires node { n < 16 }
    requires leg { l < 8 }
    requires may { is_none (((core_of core.old).locks no_new_dev).held n) ≡ true
        → ask_now_refusal ((core_of core.old).locks no_new_dev) n CR ≡ None }
    requires calm { ((core_of core.old).locks no_new_dev).conversions ≡ [] }
    ensures { core_of core.new ≡ see_device (core_of core.old) n l }
{
    if core.paths.open(n, l) {
        changes::leave_device(core, n);
    } else {
        changes::keep_device(core, n);
    }
}

fn do_body(core: &mut CoreState, n: NodeId, sender: NodeId, body: &Body)
    requires node { n < 16 }
    requires sender { sender < 16 }
    requires body { IsBody body.now }
    requires may { is_none (((core_of core.old).locks no_new_dev).held n) ≡ true
        → ask_now_refusal ((core_of core.old).locks no_new_dev) n CR ≡ None }
    requires calm { ((core_of core.old).locks no_new_dev).conversions ≡ [] }
    ensures { core_of core.new ≡ do_body (core_of core.old) n sender body.now }
{
    match body {
        Body::Metadata { roles, size, .. } | Body::Capacity { roles, size, .. } => {
            take_roles(core, n, roles, *size)
        }
        Body::Resyncing(r) => changes::suspend(core, n, sender, *r),
        Body::NewDisk { leg, .. } => see_device(core, n, *leg),
        Body::Remove { .. } | Body::ReAdd { .. } | Body::NeedsSync => {}
    }
}

fn do_message(core: &mut CoreState, n: NodeId)
    requires node { n < 16 }
    requires sender { ((core_of core.old).receiver n).from < 16 }
    requires heard { IfSome ((core_of core.old).heard n) (λ m. IsInRange m) }
    requires may { is_none (((core_of core.old).locks no_new_dev).held n) ≡ true
        → ask_now_refusal ((core_of core.old).locks no_new_dev) n CR ≡ None }
    requires calm { ((core_of core.old).locks no_new_dev).conversions ≡ [] }
    ensures { core_of core.new ≡ do_message (core_of core.old) n ((core_of core.old).heard n) }
{
    let sender = core.receivers[n as usize].sender();
    if let Some(m) = core.heard[n as usize] {
        do_body(core, n, sender, &m.body);
    }
}

/// The receiver has done what the message says.
pub fn processed(core: &mut CoreState, n: NodeId) -> Outcome
    requires accepted { refusal (core_of core.old) (Event.Processed n) ≡ None }
    requires ready { Ready (core_of core.old) }
    ensures outcome { result ≡ outcome_of (core_of core.old) (Event.Processed n) }
    ensures after { core_of core.new ≡ after (core_of core.old) (Event.Processed n) result }
{
    do_message(core, n);
    changes::await_round(core, n);
    Outcome::Done
}
