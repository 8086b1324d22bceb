// `quit`: the round is given up.
ghost use Rattle.std.specs.Prelude.{◌≡◌, ◌<◌, true, false, None};
ghost use Rattle.dlm_space.specs.Locks.{all_let_go, convert_refusal};
ghost use Rattle.msg_rounds.specs.Holds.{SenderHolds};
ghost use Rattle.msg_rounds.specs.Locks.{quitted};
ghost use Rattle.msg_rounds.specs.Refusals.{is_ex, quit_refusal};
ghost use Rattle.node_member.specs.Members.{left};
ghost use Rattle.cluster_model.specs.Changes.{no_new_dev, sender_now, device_unlocked};
ghost use Rattle.cluster_model.specs.Phases.{is_up};
ghost use Rattle.cluster_model.specs.Rounds.{quit};
ghost use Rattle.cluster_model.specs.Table.{refusal};
ghost use Rattle.cluster_model.specs.After.{after};
ghost use Rattle.cluster_model.specs.Outcomes.{outcome_of};
ghost use Rattle.world_state.specs.Kept.{core_of, Judges};
ghost use Rattle.world_state.specs.Ready.{Ready};

use crate::tables;
use mdc_types::{Event, NodeId, NodeState, Outcome, Refusal};
use msg_rounds::SenderPhase;
use world_state::CoreState;

/// The guards of `quit`.
pub fn may_quit(core: &CoreState, n: NodeId) -> Result<(), Refusal>
    ensures { Judges result (refusal (core_of core.now) (Event.Quit n)) }
{
    core.check_node(n)?;
    core.check_unfenced(n)?;
    core.check_live(n)?;
    let phase = core.sender(n).sender_phase();
    let may_quit = matches!(
        phase,
        SenderPhase::TokenHeld | SenderPhase::MessageHeld | SenderPhase::Offered
    );
    core.check_sender(n, may_quit)
}

// The round's locks are let go, and EX on `no-new-dev` goes to CR.
fn give_up(core: &mut CoreState, n: NodeId)
    requires node { n < 16 }
    requires holds { SenderHolds (core_of core.old).locks n ((core_of core.old).sender n) }
    requires may { quit_refusal ((core_of core.old).sender n) ≡ None }
    requires unlock { is_ex (((core_of core.old).locks no_new_dev).held n) ≡ true
        → convert_refusal ((core_of core.old).locks no_new_dev) n ≡ None }
    ensures { core_of core.new ≡ record (sender_now (core_of core.old) n SenderPhase.Idle) {
      locks = device_unlocked (quitted (core_of core.old).locks n ((core_of core.old).sender n)) n;
    } }
{
    tables::quit(&mut core.senders, &mut core.space, n);
    tables::unlock_device(&mut core.space, n);
}

// An up node gives its round up.
fn quit_round(core: &mut CoreState, n: NodeId)
    requires accepted { refusal (core_of core.old) (Event.Quit n) ≡ None }
    requires ready { Ready (core_of core.old) }
    requires up { is_up ((core_of core.old).state n) ≡ true }
    ensures { core_of core.new ≡ quit (core_of core.old) n }
{
    give_up(core, n);
    core.set_offer(n, None);
}

/// The live node leaves the record, and lets go of all its locks.
pub fn leave(core: &mut CoreState, n: NodeId, clean: bool)
    requires node { n < 16 }
    requires live { (core_of core.old).members.live n ≡ true }
    ensures { core_of core.new ≡ record (core_of core.old) {
      members = left (core_of core.old).members n clean;
      locks = all_let_go (core_of core.old).locks n;
    } }
{
    core.members.leave(n, clean);
    core.space.release_all(n);
}

// A node that isn't up yet gives its first round up: it is out, and its slot isn't pending.
fn quit_joining(core: &mut CoreState, n: NodeId)
    requires accepted { refusal (core_of core.old) (Event.Quit n) ≡ None }
    requires ready { Ready (core_of core.old) }
    requires joining { is_up ((core_of core.old).state n) ≡ false }
    ensures { core_of core.new ≡ quit (core_of core.old) n }
{
    core.sender_idle(n);
    core.node_out(n);
    leave(core, n, true);
}

fn is_up(core: &CoreState, n: NodeId) -> bool
    requires { n < 16 }
    ensures { result ≡ is_up ((core_of core.now).state n) }
{
    matches!(core.states[n as usize], NodeState::Up)
}

// The round is given up.
fn give_round_up(core: &mut CoreState, n: NodeId)
    requires accepted { refusal (core_of core.old) (Event.Quit n) ≡ None }
    requires ready { Ready (core_of core.old) }
    ensures { core_of core.new ≡ quit (core_of core.old) n }
{
    if is_up(core, n) {
        quit_round(core, n);
    } else {
        quit_joining(core, n);
    }
}

/// The round is given up. A node that isn't up yet is out then.
pub fn quit(core: &mut CoreState, n: NodeId) -> Outcome
    requires accepted { refusal (core_of core.old) (Event.Quit n) ≡ None }
    requires ready { Ready (core_of core.old) }
    ensures outcome { result ≡ outcome_of (core_of core.old) (Event.Quit n) }
    ensures after { core_of core.new ≡ after (core_of core.old) (Event.Quit n) result }
{
    give_round_up(core, n);
    Outcome::Done
}
