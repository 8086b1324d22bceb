ghost use Rattle.std.specs.Prelude.{◌≡◌, ◌<◌, Some, None, IfOk, OnOk, OnErr, if◌then◌else◌};
ghost use Rattle.std.specs.Result.{result_err};
ghost use Rattle.dlm_space.specs.Locks.{caller};
ghost use Rattle.dlm_space.specs.Parts.{locks_of};
ghost use Rattle.msg_rounds.specs.Holds.{ReceiverHolds, MayTake, MayResume};
ghost use Rattle.msg_rounds.specs.Locks.{message_res, ack_res, message_taken, message_processed, resumed, message_dropped};
ghost use Rattle.msg_rounds.specs.Phases.{new_receiving, receiver_word, taken, now_in, heard_death, gone_sender};
ghost use Rattle.msg_rounds.specs.Refusals.{pr_refusal, may_resume, take_refusal, processed_refusal, pr_granted_refusal, resume_refusal, drop_refusal};

use crate::{ReceiverPhase, RoundError, Verdict, calls};
use dlm_modes::{Block, Mode};
use dlm_space::Space;
use mdc_types::{NodeId, Res, Word};
use std::marker::Model;

/// A node as the receiver of messages. A refused call changes nothing.
///
/// Each call takes the lock space and the node, which is below 16.
///
/// Contracts see the phase, the sender of the message that was taken last, and whether it was told that
/// this sender died before its round was over.
#[derive(Clone, Copy)]
pub struct Receiver {
    phase: ReceiverPhase,
    from: NodeId,
    gone: bool,
}

impl Model for Receiver {
    ghost use Rattle.msg_rounds.specs.Phases.{Receiving};

    ghost Value = { Receiving };

    ghost view = { λ r. record { phase = r.phase; from = r.from; gone = r.gone } };

    ghost inverse = { λ r. record { phase = r.phase; from = r.from; gone = r.gone } };
}

// The node at the head of the queue on `ack`, where it calls this node.
fn caller(space: &Space, node: NodeId) -> Option<NodeId>
    requires { node < 16 }
    ensures { result ≡ caller (locks_of space.now ack_res) node }
{
    space.calls(node, Res::Ack.number())
}

// PR on `message` is granted to the node.
fn granted(space: &Space, node: NodeId) -> Result<(), RoundError>
    requires { node < 16 }
    ensures { result_err result ≡ pr_refusal (locks_of space.now) node }
{
    match space.holder(Res::Message.number(), node) {
        Some(Mode::PR) => Ok(()),
        _ => Err(RoundError::NotGranted(Res::Message)),
    }
}

impl Receiver {
    /// An idle receiver.
    pub fn new() -> Receiver
        ensures { result ≡ new_receiving }
    {
        Receiver {
            phase: ReceiverPhase::Idle,
            from: 0,
            gone: false,
        }
    }

    pub fn receiver_phase(&self) -> ReceiverPhase
        ensures { result ≡ self.now.phase }
    {
        self.phase
    }

    /// The word that `NotPhase` and `ReceiverBusy` give for the phase.
    pub fn phase(&self) -> Word
        ensures { result ≡ receiver_word self.now.phase }
    {
        match self.phase {
            ReceiverPhase::Idle => Word::Idle,
            ReceiverPhase::Taken => Word::Taken,
            ReceiverPhase::Waiting => Word::Waiting,
            ReceiverPhase::Ready => Word::Ready,
        }
    }

    /// The sender of the message that is being received, where it is known to have died before its
    /// round was over.
    pub fn gone(&self) -> Option<NodeId>
        ensures { result ≡ gone_sender self.now }
    {
        match self.phase {
            ReceiverPhase::Idle => None,
            _ if self.gone => Some(self.from),
            _ => None,
        }
    }

    /// The sender of the message that was taken last, 0 where none was.
    pub fn sender(&self) -> NodeId
        ensures { result ≡ self.now.from }
    {
        self.from
    }

    /// Whether that sender is known to have died before its round was over.
    pub fn is_gone(&self) -> bool
        ensures { result ≡ self.now.gone }
    {
        self.gone
    }

    fn not_phase(&self) -> RoundError
        ensures { result ≡ RoundError.NotPhase (receiver_word self.now.phase) }
    {
        RoundError::NotPhase(self.phase())
    }

    // Waiting will do, once PR is granted.
    fn may_resume(&self) -> bool
        ensures { result ≡ may_resume self.now.phase }
    {
        matches!(self.phase, ReceiverPhase::Waiting | ReceiverPhase::Ready)
    }

    /// CR on `message` is taken at once, and its block is read: the message, and its sender. Needs idle;
    /// `NotCalled` where the head of the queue on `ack` doesn't disagree with what the node holds there.
    pub fn take(&mut self, space: &mut Space, node: NodeId) -> Result<(Block, NodeId), RoundError>
        requires node { node < 16 }
        requires may { take_refusal (locks_of space.old) node self.old ≡ None → MayTake (locks_of space.old) node }
        ensures refused { result_err result ≡ take_refusal (locks_of space.old) node self.old }
        ensures block { IfOk result (λ read. read.0 ≡ (locks_of space.old message_res).block) }
        ensures sender { IfOk result (λ read. Some read.1 ≡ caller (locks_of space.old ack_res) node) }
        ensures phase { IfOk result (λ read. self.new ≡ taken read.1) }
        ensures locks { OnOk result (locks_of space.new ≡ message_taken (locks_of space.old) node) }
        ensures err { OnErr result ((self.new ≡ self.old) × (space.new ≡ space.old)) }
    {
        let ReceiverPhase::Idle = self.phase else {
            return Err(self.not_phase());
        };
        let Some(sender) = caller(space, node) else {
            return Err(RoundError::NotCalled);
        };
        let Some(block) = calls::take(space, node, Res::Message) else {
            unreachable!()
        };
        self.phase = ReceiverPhase::Taken;
        self.from = sender;
        self.gone = false;
        Ok((block, sender))
    }

    /// The message is processed: `ack` is let go, and PR is asked on `message`. Needs taken;
    /// `SenderGone` where the message's sender has died.
    pub fn processed(&mut self, space: &mut Space, node: NodeId) -> Result<(), RoundError>
        requires node { node < 16 }
        requires holds { ReceiverHolds (locks_of space.old) node self.old.phase }
        ensures refused { result_err result ≡ processed_refusal self.old }
        ensures phase { OnOk result (self.new ≡ now_in ReceiverPhase.Waiting self.old) }
        ensures locks { OnOk result (locks_of space.new ≡ message_processed (locks_of space.old) node) }
        ensures err { OnErr result ((self.new ≡ self.old) × (space.new ≡ space.old)) }
    {
        let ReceiverPhase::Taken = self.phase else {
            return Err(self.not_phase());
        };
        if self.gone {
            return Err(RoundError::SenderGone(self.from));
        }
        calls::let_go(space, node, Res::Ack);
        calls::raise(space, node, Res::Message, Mode::PR);
        self.phase = ReceiverPhase::Waiting;
        Ok(())
    }

    /// The receiver was told that PR on `message` is granted: the sender has let go of it. Needs
    /// waiting; `NotGranted` where it isn't.
    pub fn pr_granted(&mut self, space: &mut Space, node: NodeId) -> Result<(), RoundError>
        requires { node < 16 }
        ensures refused { result_err result ≡ pr_granted_refusal (locks_of space.old) node self.old }
        ensures phase { OnOk result (self.new ≡ now_in ReceiverPhase.Ready self.old) }
        ensures space { space.new ≡ space.old }
        ensures err { OnErr result (self.new ≡ self.old) }
    {
        let ReceiverPhase::Waiting = self.phase else {
            return Err(self.not_phase());
        };
        granted(space, node)?;
        self.phase = ReceiverPhase::Ready;
        Ok(())
    }

    /// The round is over for the receiver: CR on `ack` is taken at once, and `message` is let go. Broken
    /// exactly where it was told that the message's sender died before its round was over. Needs waiting
    /// or ready; `NotGranted` where PR on `message` isn't granted.
    pub fn resume(&mut self, space: &mut Space, node: NodeId) -> Result<Verdict, RoundError>
        requires node { node < 16 }
        requires holds { ReceiverHolds (locks_of space.old) node self.old.phase }
        requires may { resume_refusal (locks_of space.old) node self.old ≡ None → MayResume (locks_of space.old) node }
        ensures refused { result_err result ≡ resume_refusal (locks_of space.old) node self.old }
        ensures verdict { IfOk result (λ verdict. verdict ≡ (if self.old.gone then Verdict.Broken else Verdict.Whole)) }
        ensures phase { OnOk result (self.new ≡ now_in ReceiverPhase.Idle self.old) }
        ensures locks { OnOk result (locks_of space.new ≡ resumed (locks_of space.old) node) }
        ensures err { OnErr result ((self.new ≡ self.old) × (space.new ≡ space.old)) }
    {
        if !self.may_resume() {
            return Err(self.not_phase());
        }
        granted(space, node)?;
        let _ = calls::take(space, node, Res::Ack);
        calls::let_go(space, node, Res::Message);
        self.phase = ReceiverPhase::Idle;
        Ok(if self.gone {
            Verdict::Broken
        } else {
            Verdict::Whole
        })
    }

    /// The message of a dead sender is dropped: `message` is let go. Needs taken; `SenderLive` where the
    /// message's sender hasn't died.
    pub fn drop_message(&mut self, space: &mut Space, node: NodeId) -> Result<(), RoundError>
        requires node { node < 16 }
        requires holds { ReceiverHolds (locks_of space.old) node self.old.phase }
        ensures refused { result_err result ≡ drop_refusal self.old }
        ensures phase { OnOk result (self.new ≡ now_in ReceiverPhase.Idle self.old) }
        ensures locks { OnOk result (locks_of space.new ≡ message_dropped (locks_of space.old) node) }
        ensures err { OnErr result ((self.new ≡ self.old) × (space.new ≡ space.old)) }
    {
        let ReceiverPhase::Taken = self.phase else {
            return Err(self.not_phase());
        };
        if !self.gone {
            return Err(RoundError::SenderLive(self.from));
        }
        calls::let_go(space, node, Res::Message);
        self.phase = ReceiverPhase::Idle;
        Ok(())
    }

    /// The node has died after its publish and before its finish. Nothing changes where the message that
    /// is being received isn't that node's.
    pub fn sender_died(&mut self, space: &mut Space, node: NodeId)
        ensures receiver { self.new ≡ heard_death node self.old }
        ensures space { space.new ≡ space.old }
    {
        let receiving = !matches!(self.phase, ReceiverPhase::Idle);
        if receiving && self.from == node {
            self.gone = true;
        }
    }
}
