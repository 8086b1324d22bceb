// Changes of the tables by node.

ghost use Rattle.std.specs.Prelude.{◌≡◌, ◌<◌, ◌==◌, ◌&&◌, length, slice_set, [], None, Some};
ghost use Rattle.std.specs.Prelude.{if◌then◌else◌};
ghost use Rattle.dlm_modes.specs.declared.mode.Mode.TheVariants.{CR};
ghost use Rattle.mdc_types.specs.Resources.{IsResource, number_of};
ghost use Rattle.dlm_modes.specs.Points.{with_at};
ghost use Rattle.dlm_space.specs.Locks.{ask_now_refusal, caller, holding, let_go};
ghost use Rattle.dlm_space.specs.Parts.{locks_of};
ghost use Rattle.msg_rounds.specs.Holds.{SenderHolds, ReceiverHolds, MayTake, MayResume};
ghost use Rattle.msg_rounds.specs.Locks.{message_res, ack_res, token_asked, message_taken};
ghost use Rattle.msg_rounds.specs.Locks.{message_processed, resumed, message_dropped};
ghost use Rattle.msg_rounds.specs.Phases.{new_receiving, taken, now_in, heard_death};
ghost use Rattle.msg_rounds.specs.Refusals.{take_refusal, processed_refusal, resume_refusal};
ghost use Rattle.msg_rounds.specs.Refusals.{drop_refusal};
ghost use Rattle.suspend_ranges.specs.Suspended.{entry_of};
ghost use Rattle.cluster_model.specs.Changes.{no_new_dev};
ghost use Rattle.world_state.specs.Kept.{tried_of};
ghost use Rattle.world_members.specs.Tables.{senders_of, receivers_of, heads_of, all_tries};
ghost use Rattle.world_members.specs.Tables.{suspended_of};

use dlm_modes::{Block, Mode};
use dlm_space::Space;
use mdc_types::{LegId, NodeId, Range, Res};
use msg_rounds::{Receiver, ReceiverPhase, Sender, SenderPhase, Verdict};
use suspend_ranges::SuspendList;
use world_state::Attempt;

/// The node's heads stand at sector 0.
pub fn go_home(heads: &mut [[u32; 8]; 16], n: NodeId)
    requires { n < 16 }
    ensures { heads_of heads.new ≡ (λ m l. if m == n then 0 else heads_of heads.old m l) }
{
    heads[n as usize] = [0; 8];
}

fn put_attempt(tried: &mut [Attempt; 8], l: LegId, attempt: Attempt)
    requires { l < 8 }
    ensures tried { tried.new ≡ slice_set tried.old l attempt }
    ensures legs { length tried.old ≡ 8 }
{
    tried[l as usize] = attempt;
}

/// What the node has of the leg's superblock.
pub fn put_try(tried: &mut Vec<[Attempt; 8]>, n: NodeId, l: LegId, attempt: Attempt)
    requires node { n < length tried.old.items }
    requires leg { l < 8 }
    ensures tries { all_tries tried.new.items ≡ (λ m k. if (m == n) && (k == l)
        then tried_of attempt else all_tries tried.old.items m k) }
    ensures size { length tried.new.items ≡ length tried.old.items }
{
    let attempts = &mut tried[n as usize];
    put_attempt(attempts, l, attempt);
}

/// The owner's range is suspended at the node.
pub fn put_range(lists: &mut [SuspendList; 16], n: NodeId, o: NodeId, r: Range)
    requires node { n < 16 }
    requires owner { o < 16 }
    ensures ranges { suspended_of lists.new
        ≡ (λ m owner. if (m == n) && (owner == o) then entry_of r
        else suspended_of lists.old m owner) }
    ensures size { length lists.new ≡ 16 }
{
    lists[n as usize].put(o, r);
}

/// The node asks the token.
pub fn ask_token(
    senders: &mut [Sender; 16],
    space: &mut Space,
    receivers: &[Receiver; 16],
    n: NodeId,
)
    requires node { n < 16 }
    requires holds { SenderHolds (locks_of space.old) n (senders_of senders.old n) }
    requires sender { senders_of senders.old n ≡ SenderPhase.Idle }
    requires receiver { (receivers_of receivers.now n).phase ≡ ReceiverPhase.Idle }
    ensures sender { senders_of senders.new
        ≡ with_at (senders_of senders.old) n SenderPhase.TokenAsked }
    ensures locks { locks_of space.new ≡ token_asked (locks_of space.old) n }
    ensures size { length senders.new ≡ 16 }
{
    let receiver = &receivers[n as usize];
    match senders[n as usize].ask_token(space, n, receiver) {
        Ok(()) => {}
        Err(_) => unreachable!(),
    }
}

/// The receiver takes a message: its block, and its sender.
pub fn take(receivers: &mut [Receiver; 16], space: &mut Space, n: NodeId) -> (Block, NodeId)
    requires node { n < 16 }
    requires may { take_refusal (locks_of space.old) n (receivers_of receivers.old n) ≡ None }
    requires holds { MayTake (locks_of space.old) n }
    ensures block { result.0 ≡ (locks_of space.old message_res).block }
    ensures sender { Some result.1 ≡ caller (locks_of space.old ack_res) n }
    ensures receiver { receivers_of receivers.new
        ≡ with_at (receivers_of receivers.old) n (taken result.1) }
    ensures locks { locks_of space.new ≡ message_taken (locks_of space.old) n }
    ensures size { length receivers.new ≡ 16 }
{
    match receivers[n as usize].take(space, n) {
        Ok(read) => read,
        Err(_) => unreachable!(),
    }
}

/// The receiver has processed its message.
pub fn process(receivers: &mut [Receiver; 16], space: &mut Space, n: NodeId)
    requires node { n < 16 }
    requires may { processed_refusal (receivers_of receivers.old n) ≡ None }
    requires holds { ReceiverHolds (locks_of space.old) n (receivers_of receivers.old n).phase }
    ensures receiver { receivers_of receivers.new
        ≡ with_at (receivers_of receivers.old) n
        (now_in ReceiverPhase.Waiting (receivers_of receivers.old n)) }
    ensures locks { locks_of space.new ≡ message_processed (locks_of space.old) n }
    ensures size { length receivers.new ≡ 16 }
{
    match receivers[n as usize].processed(space, n) {
        Ok(()) => {}
        Err(_) => unreachable!(),
    }
}

/// The round is over for the receiver.
pub fn resume(receivers: &mut [Receiver; 16], space: &mut Space, n: NodeId) -> Verdict
    requires node { n < 16 }
    requires may { resume_refusal (locks_of space.old) n (receivers_of receivers.old n) ≡ None }
    requires holds { ReceiverHolds (locks_of space.old) n (receivers_of receivers.old n).phase }
    requires free { MayResume (locks_of space.old) n }
    ensures verdict { result
        ≡ (if (receivers_of receivers.old n).gone then Verdict.Broken else Verdict.Whole) }
    ensures receiver { receivers_of receivers.new
        ≡ with_at (receivers_of receivers.old) n
        (now_in ReceiverPhase.Idle (receivers_of receivers.old n)) }
    ensures locks { locks_of space.new ≡ resumed (locks_of space.old) n }
    ensures size { length receivers.new ≡ 16 }
{
    match receivers[n as usize].resume(space, n) {
        Ok(verdict) => verdict,
        Err(_) => unreachable!(),
    }
}

/// The receiver drops the message of a dead sender.
pub fn drop_message(receivers: &mut [Receiver; 16], space: &mut Space, n: NodeId)
    requires node { n < 16 }
    requires may { drop_refusal (receivers_of receivers.old n) ≡ None }
    requires holds { ReceiverHolds (locks_of space.old) n (receivers_of receivers.old n).phase }
    ensures receiver { receivers_of receivers.new
        ≡ with_at (receivers_of receivers.old) n
        (now_in ReceiverPhase.Idle (receivers_of receivers.old n)) }
    ensures locks { locks_of space.new ≡ message_dropped (locks_of space.old) n }
    ensures size { length receivers.new ≡ 16 }
{
    match receivers[n as usize].drop_message(space, n) {
        Ok(()) => {}
        Err(_) => unreachable!(),
    }
}

// Each receiver hears of the death.
fn tell_all(receivers: &mut [Receiver; 16], space: &mut Space, n: NodeId)
    ensures receivers { receivers_of receivers.new
        ≡ (λ m. heard_death n (receivers_of receivers.old m)) }
    ensures space { space.new ≡ space.old }
    ensures size { length receivers.new ≡ 16 }
{
    for receiver in receivers.iter_mut() {
        receiver.sender_died(space, n);
    }
}

// Each receiver hears of the death, where the node's message is published.
fn tell_if(receivers: &mut [Receiver; 16], space: &mut Space, n: NodeId, published: bool)
    ensures receivers { receivers_of receivers.new ≡ (λ m. if published
        then heard_death n (receivers_of receivers.old m) else receivers_of receivers.old m) }
    ensures space { space.new ≡ space.old }
    ensures size { length receivers.new ≡ 16 }
{
    if published {
        tell_all(receivers, space, n)
    }
}

/// The node is dead: its receiver is new, and the others hear of it where its message is published.
pub fn tell_death(receivers: &mut [Receiver; 16], space: &mut Space, n: NodeId, published: bool)
    requires { n < 16 }
    ensures receivers { receivers_of receivers.new ≡ (λ m. if m == n then new_receiving
        else if published then heard_death n (receivers_of receivers.old m)
        else receivers_of receivers.old m) }
    ensures space { space.new ≡ space.old }
    ensures size { length receivers.new ≡ 16 }
{
    tell_if(receivers, space, n, published);
    receivers[n as usize] = Receiver::new();
}

/// The owner's range is suspended nowhere any more.
pub fn drop_owner(lists: &mut [SuspendList; 16], o: NodeId)
    requires { o < 16 }
    ensures ranges { suspended_of lists.new
        ≡ (λ m owner. if owner == o then None else suspended_of lists.old m owner) }
    ensures size { length lists.new ≡ 16 }
{
    for list in lists.iter_mut() {
        list.drop_owner(o);
    }
}

// CR on the resource, at once.
pub fn take_now(space: &mut Space, n: NodeId, res: Res)
    requires node { n < 16 }
    requires res { IsResource res }
    requires may { ask_now_refusal (locks_of space.old (number_of res)) n CR ≡ None }
    ensures { locks_of space.new ≡ with_at (locks_of space.old) (number_of res)
        (holding (locks_of space.old (number_of res)) n CR) }
{
    if space.ask_now(n, res.number(), Mode::CR).is_err() {
        unreachable!()
    }
}

/// CR on `ack` and on `no-new-dev`.
pub fn enter(space: &mut Space, n: NodeId)
    requires node { n < 16 }
    requires ack { ask_now_refusal (locks_of space.old ack_res) n CR ≡ None }
    requires device { ask_now_refusal (locks_of space.old no_new_dev) n CR ≡ None }
    ensures { locks_of space.new ≡ with_at
        (with_at (locks_of space.old) ack_res (holding (locks_of space.old ack_res) n CR))
        no_new_dev (holding (locks_of space.old no_new_dev) n CR) }
{
    take_now(space, n, Res::Ack);
    take_now(space, n, Res::NoNewDev);
}

/// What the node holds on `no-new-dev` is let go, if anything.
pub fn leave_device(space: &mut Space, n: NodeId)
    requires node { n < 16 }
    requires calm { (locks_of space.old no_new_dev).conversions ≡ [] }
    ensures { locks_of space.new ≡ with_at (locks_of space.old) no_new_dev
        (let_go (locks_of space.old no_new_dev) n) }
{
    if space.holder(Res::NoNewDev.number(), n).is_some() {
        match space.release(n, Res::NoNewDev.number(), None) {
            Ok(()) => {}
            Err(_) => unreachable!(),
        }
    }
}
