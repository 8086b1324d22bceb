// The single changes of which the rows are made.

ghost use Rattle.std.specs.Prelude.{◌≡◌, ◌<◌, [], None, Some, is_none, true};
ghost use Rattle.dlm_modes.specs.declared.mode.Mode.TheVariants.{CR, PW};
ghost use Rattle.dlm_space.specs.Locks.{ask_now_refusal, caller, holding};
ghost use Rattle.dlm_space.specs.Parts.{locks_of};
ghost use Rattle.dlm_modes.specs.Points.{with_at};
ghost use Rattle.mdc_types.specs.Resources.{IsResource, number_of};
ghost use Rattle.leg_failure.specs.Views.{view_of};
ghost use Rattle.msg_rounds.specs.Holds.{SenderHolds, ReceiverHolds, MayTake, MayResume};
ghost use Rattle.msg_rounds.specs.Locks.{message_res, ack_res};
ghost use Rattle.msg_rounds.specs.Phases.{is_idle, has_published};
ghost use Rattle.msg_rounds.specs.Refusals.{is_sender_idle, take_refusal, processed_refusal};
ghost use Rattle.msg_rounds.specs.Refusals.{resume_refusal, drop_refusal};
ghost use Rattle.node_member.specs.Members.{join_refusal, die_refusal};
ghost use Rattle.cluster_model.specs.Changes.{no_new_dev};
ghost use Rattle.cluster_model.specs.Receiving.{resume_outcome};
ghost use Rattle.world_members.specs.Changes.{heads_home, member_joined, member_left, member_died};
ghost use Rattle.world_members.specs.Changes.{slot_taken, token_awaited, locks_entered, locks_left};
ghost use Rattle.world_members.specs.Changes.{locks_lost, device_kept, device_left, range_taken};
ghost use Rattle.world_members.specs.Changes.{range_dropped, receivers_told, requests_ended};
ghost use Rattle.world_members.specs.Changes.{message_read, round_awaited, round_over};
ghost use Rattle.world_members.specs.Changes.{round_dropped, view_known, addition_over};
ghost use Rattle.cluster_model.specs.Joining.{loaded};
ghost use Rattle.world_state.specs.Kept.{core_of, tried_of};

use crate::tables;
use disk_addition::Addition;
use dlm_modes::{Block, Mode};
use mdc_types::{LegId, NodeId, Outcome, Range, Res};
use msg_rounds::{ReceiverPhase, SenderPhase, Verdict};
use world_state::{Attempt, CoreState};

// Nodes.

pub fn reset_heads(core: &mut CoreState, n: NodeId)
    requires { n < 16 }
    ensures { core_of core.new ≡ heads_home (core_of core.old) n }
{
    tables::go_home(&mut core.heads, n);
}

// What the node has of the leg's superblock.
pub fn set_try(core: &mut CoreState, n: NodeId, l: LegId, attempt: Attempt)
    requires node { n < 16 }
    requires leg { l < 8 }
    ensures { core_of core.new ≡ loaded (core_of core.old) n l (tried_of attempt) }
{
    tables::put_try(&mut core.tried, n, l, attempt);
}

pub fn join_members(core: &mut CoreState, n: NodeId)
    requires node { n < 16 }
    requires may { join_refusal (core_of core.old).members n ≡ None }
    ensures { core_of core.new ≡ member_joined (core_of core.old) n }
{
    if core.members.join(n).is_err() {
        unreachable!()
    }
}

// The node leaves clean.
pub fn leave_members(core: &mut CoreState, n: NodeId)
    requires node { n < 16 }
    requires live { (core_of core.old).members.live n ≡ true }
    ensures { core_of core.new ≡ member_left (core_of core.old) n }
{
    core.members.leave(n, true);
}

pub fn fence(core: &mut CoreState, n: NodeId)
    requires node { n < 16 }
    requires may { die_refusal (core_of core.old).members n ≡ None }
    ensures { core_of core.new ≡ member_died (core_of core.old) n }
{
    if core.members.die(n).is_err() {
        unreachable!()
    }
}

// Locks.

// PW on the node's own bitmap.
pub fn take_slot(core: &mut CoreState, n: NodeId)
    requires node { n < 16 }
    requires may { ask_now_refusal ((core_of core.old).locks n) n PW ≡ None }
    ensures { core_of core.new ≡ slot_taken (core_of core.old) n }
{
    if core.space.ask_now(n, n as usize, Mode::PW).is_err() {
        unreachable!()
    }
}

pub fn ask_token(core: &mut CoreState, n: NodeId)
    requires node { n < 16 }
    requires holds { SenderHolds (core_of core.old).locks n ((core_of core.old).sender n) }
    requires sender { (core_of core.old).sender n ≡ SenderPhase.Idle }
    requires receiver { ((core_of core.old).receiver n).phase ≡ ReceiverPhase.Idle }
    ensures { core_of core.new ≡ token_awaited (core_of core.old) n }
{
    tables::ask_token(&mut core.senders, &mut core.space, &core.receivers, n);
}

// CR on `ack` and on `no-new-dev`.
pub fn enter_locks(core: &mut CoreState, n: NodeId)
    requires node { n < 16 }
    requires ack { ask_now_refusal ((core_of core.old).locks ack_res) n CR ≡ None }
    requires device { ask_now_refusal ((core_of core.old).locks no_new_dev) n CR ≡ None }
    ensures { core_of core.new ≡ locks_entered (core_of core.old) n }
{
    tables::enter(&mut core.space, n);
}

pub fn leave_locks(core: &mut CoreState, n: NodeId)
    requires { n < 16 }
    ensures { core_of core.new ≡ locks_left (core_of core.old) n }
{
    core.space.release_all(n);
}

pub fn lose_locks(core: &mut CoreState, n: NodeId)
    requires { n < 16 }
    ensures { core_of core.new ≡ locks_lost (core_of core.old) n }
{
    core.space.die(n);
}

// CR on `no-new-dev`, where the node has nothing there.
pub fn keep_device(core: &mut CoreState, n: NodeId)
    requires node { n < 16 }
    requires may { is_none (((core_of core.old).locks no_new_dev).held n) ≡ true
        → ask_now_refusal ((core_of core.old).locks no_new_dev) n CR ≡ None }
    ensures { core_of core.new ≡ device_kept (core_of core.old) n }
{
    if core.space.holder(Res::NoNewDev.number(), n).is_none() {
        tables::take_now(&mut core.space, n, Res::NoNewDev);
    }
}

// The node lets go of `no-new-dev`, where it holds anything there.
pub fn leave_device(core: &mut CoreState, n: NodeId)
    requires node { n < 16 }
    requires calm { ((core_of core.old).locks no_new_dev).conversions ≡ [] }
    ensures { core_of core.new ≡ device_left (core_of core.old) n }
{
    tables::leave_device(&mut core.space, n);
}

// What is suspended.

pub fn suspend(core: &mut CoreState, n: NodeId, owner: NodeId, r: Range)
    requires node { n < 16 }
    requires owner { owner < 16 }
    ensures { core_of core.new ≡ range_taken (core_of core.old) n owner r }
{
    tables::put_range(&mut core.suspended, n, owner, r);
}

// Receivers, and what is in flight.

pub fn end_requests(core: &mut CoreState, n: NodeId)
    requires { n < 16 }
    ensures { core_of core.new ≡ requests_ended (core_of core.old) n }
{
    core.requests.die(n);
}

// The message is taken: its block, and its sender.
pub fn take_message(core: &mut CoreState, n: NodeId) -> (Block, NodeId)
    requires node { n < 16 }
    requires may { take_refusal (core_of core.old).locks n ((core_of core.old).receiver n) ≡ None }
    requires holds { MayTake (core_of core.old).locks n }
    ensures block { result.0 ≡ ((core_of core.old).locks message_res).block }
    ensures sender { Some result.1 ≡ caller ((core_of core.old).locks ack_res) n }
    ensures core { core_of core.new ≡ message_read (core_of core.old) n result.1 }
{
    tables::take(&mut core.receivers, &mut core.space, n)
}

pub fn await_round(core: &mut CoreState, n: NodeId)
    requires node { n < 16 }
    requires may { processed_refusal ((core_of core.old).receiver n) ≡ None }
    requires holds { ReceiverHolds (core_of core.old).locks n ((core_of core.old).receiver n).phase }
    ensures { core_of core.new ≡ round_awaited (core_of core.old) n }
{
    tables::process(&mut core.receivers, &mut core.space, n);
}

// The round is over for the receiver, whole or broken.
pub fn end_round(core: &mut CoreState, n: NodeId) -> Outcome
    requires node { n < 16 }
    requires may { resume_refusal (core_of core.old).locks n ((core_of core.old).receiver n) ≡ None }
    requires holds { ReceiverHolds (core_of core.old).locks n ((core_of core.old).receiver n).phase }
    requires free { MayResume (core_of core.old).locks n }
    ensures outcome { result ≡ resume_outcome (core_of core.old) n }
    ensures core { core_of core.new ≡ round_over (core_of core.old) n }
{
    match tables::resume(&mut core.receivers, &mut core.space, n) {
        Verdict::Whole => Outcome::Whole,
        Verdict::Broken => Outcome::Broken,
    }
}

pub fn drop_round(core: &mut CoreState, n: NodeId)
    requires node { n < 16 }
    requires may { drop_refusal ((core_of core.old).receiver n) ≡ None }
    requires holds { ReceiverHolds (core_of core.old).locks n ((core_of core.old).receiver n).phase }
    ensures { core_of core.new ≡ round_dropped (core_of core.old) n }
{
    tables::drop_message(&mut core.receivers, &mut core.space, n);
}

pub fn know_view(core: &mut CoreState, n: NodeId)
    requires { n < 16 }
    ensures { core_of core.new ≡ view_known (core_of core.old) n }
{
    core.views[n as usize].acknowledge();
}

pub fn end_addition(core: &mut CoreState, n: NodeId)
    requires { n < 16 }
    ensures { core_of core.new ≡ addition_over (core_of core.old) n }
{
    core.additions.set_addition(n, Addition::Nothing);
}
