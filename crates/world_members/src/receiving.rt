ghost use Rattle.std.specs.Prelude.{◌≡◌, ◌<◌, is_some, not, ◌&&◌, None};
ghost use Rattle.mdc_types.specs.Geometry.{nodes_of};
ghost use Rattle.dlm_modes.specs.Guards.{unless};
ghost use Rattle.dlm_space.specs.Locks.{caller};
ghost use Rattle.msg_rounds.specs.Locks.{message_res, ack_res};
ghost use Rattle.msg_rounds.specs.Phases.{is_idle};
ghost use Rattle.msg_rounds.specs.Refusals.{is_taken, is_pr, may_resume};
ghost use Rattle.cluster_model.specs.After.{after};
ghost use Rattle.cluster_model.specs.Outcomes.{outcome_of};
ghost use Rattle.cluster_model.specs.Receiving.{kind_in, told_state};
ghost use Rattle.cluster_model.specs.Table.{refusal};
ghost use Rattle.world_members.specs.Changes.{view_resumed_if};
ghost use Rattle.world_state.specs.Kept.{Judges, core_of};
ghost use Rattle.world_state.specs.Ready.{Ready};

use crate::changes;
use cluster_msgs::{Body, Msg, read_msg};
use dlm_modes::Mode;
use mdc_types::{Event, NodeId, Outcome, Refusal, Res};
use msg_rounds::ReceiverPhase;
use world_state::{CoreState, check};

/// The node's receiver is idle.
pub fn receives_nothing(core: &CoreState, n: NodeId) -> bool
    requires { n < nodes_of core.now.identity.geometry }
    ensures { result ≡ is_idle ((core_of core.now).receiver n).phase }
{
    matches!(core.receiver(n).receiver_phase(), ReceiverPhase::Idle)
}

// The node that calls on `ack`.
fn is_called(core: &CoreState, n: NodeId) -> bool
    requires { n < nodes_of core.now.identity.geometry }
    ensures { result ≡ is_some (caller ((core_of core.now).locks ack_res) n) }
{
    core.space.calls(n, Res::Ack.number()).is_some()
}

/// The guards of `take n`.
pub fn may_take(core: &CoreState, n: NodeId) -> Result<(), Refusal>
    ensures { Judges result (refusal (core_of core.now) (Event.Take n)) }
{
    core.check_node(n)?;
    core.check_unfenced(n)?;
    core.check_live(n)?;
    core.check_up(n)?;
    core.check_receiver(n, receives_nothing(core, n))?;
    check(is_called(core, n), Refusal::NotCalled)
}

fn kind_of(heard: &Option<Msg>) -> u8
    ensures { result ≡ kind_in heard.now }
{
    match heard {
        None => 0,
        Some(m) => m.kind(),
    }
}

/// The receiver takes the message.
pub fn take(core: &mut CoreState, n: NodeId) -> Outcome
    requires accepted { refusal (core_of core.old) (Event.Take n) ≡ None }
    requires ready { Ready (core_of core.old) }
    ensures outcome { result ≡ outcome_of (core_of core.old) (Event.Take n) }
    ensures after { core_of core.new ≡ after (core_of core.old) (Event.Take n) result }
{
    let (block, sender) = changes::take_message(core, n);
    let heard = read_msg(&block);
    core.set_heard(n, heard);
    Outcome::Message {
        kind: kind_of(&heard),
        sender,
    }
}

fn may_end(core: &CoreState, n: NodeId) -> bool
    requires { n < nodes_of core.now.identity.geometry }
    ensures { result ≡ may_resume ((core_of core.now).receiver n).phase }
{
    matches!(
        core.receiver(n).receiver_phase(),
        ReceiverPhase::Waiting | ReceiverPhase::Ready
    )
}

fn has_message(core: &CoreState, n: NodeId) -> bool
    requires { n < nodes_of core.now.identity.geometry }
    ensures { result ≡ is_pr (((core_of core.now).locks message_res).held n) }
{
    matches!(core.space.holder(Res::Message.number(), n), Some(Mode::PR))
}

/// The guards of `resume n`.
pub fn may_resume(core: &CoreState, n: NodeId) -> Result<(), Refusal>
    ensures { Judges result (refusal (core_of core.now) (Event.Resume n)) }
{
    core.check_node(n)?;
    core.check_unfenced(n)?;
    core.check_live(n)?;
    core.check_receiver(n, may_end(core, n))?;
    check(has_message(core, n), Refusal::NotGranted(Res::Message))
}

// The message tells the state of the array.
fn tells_state(heard: &Option<Msg>) -> bool
    ensures { result ≡ told_state heard.now }
{
    match heard {
        None => false,
        Some(m) => matches!(m.body, Body::Metadata { .. } | Body::Capacity { .. }),
    }
}

// A whole round of the superblock's is one that the node knows as whole.
fn knows_whole(core: &CoreState, n: NodeId) -> bool
    requires { n < 16 }
    ensures { result ≡ (not ((core_of core.now).receiver n).gone
        && told_state ((core_of core.now).heard n)) }
{
    !core.receivers[n as usize].is_gone() && tells_state(&core.heard[n as usize])
}

// The node knows the round as whole, where it does.
fn resume_view(core: &mut CoreState, n: NodeId, knows: bool)
    requires { n < 16 }
    ensures { core_of core.new ≡ view_resumed_if (core_of core.old) n knows }
{
    if knows {
        changes::know_view(core, n);
    }
}

/// The receiver is idle again.
pub fn resume(core: &mut CoreState, n: NodeId) -> Outcome
    requires accepted { refusal (core_of core.old) (Event.Resume n) ≡ None }
    requires ready { Ready (core_of core.old) }
    ensures outcome { result ≡ outcome_of (core_of core.old) (Event.Resume n) }
    ensures after { core_of core.new ≡ after (core_of core.old) (Event.Resume n) result }
{
    let knows = knows_whole(core, n);
    let outcome = changes::end_round(core, n);
    core.set_heard(n, None);
    resume_view(core, n, knows);
    outcome
}

/// The node's receiver has taken a message, and hasn't processed it.
pub fn has_taken(core: &CoreState, n: NodeId) -> bool
    requires { n < nodes_of core.now.identity.geometry }
    ensures { result ≡ is_taken ((core_of core.now).receiver n).phase }
{
    matches!(core.receiver(n).receiver_phase(), ReceiverPhase::Taken)
}

/// The guards of `drop n`.
pub fn may_drop_message(core: &CoreState, n: NodeId) -> Result<(), Refusal>
    ensures { Judges result (refusal (core_of core.now) (Event.DropMessage n)) }
{
    core.check_node(n)?;
    core.check_unfenced(n)?;
    core.check_live(n)?;
    core.check_receiver(n, has_taken(core, n))?;
    let receiver = core.receiver(n);
    check(receiver.is_gone(), Refusal::SenderLive(receiver.sender()))
}

/// The receiver drops the message of a dead sender.
pub fn drop_message(core: &mut CoreState, n: NodeId) -> Outcome
    requires accepted { refusal (core_of core.old) (Event.DropMessage n) ≡ None }
    requires ready { Ready (core_of core.old) }
    ensures outcome { result ≡ outcome_of (core_of core.old) (Event.DropMessage n) }
    ensures after { core_of core.new ≡ after (core_of core.old) (Event.DropMessage n) result }
{
    changes::drop_round(core, n);
    core.set_heard(n, None);
    Outcome::Done
}
