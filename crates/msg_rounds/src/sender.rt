ghost use Rattle.std.specs.Prelude.{◌≡◌, ◌<◌, OnOk, OnErr, None};
ghost use Rattle.std.specs.Result.{result_err};
ghost use Rattle.dlm_modes.specs.Points.{with_at};
ghost use Rattle.mdc_types.specs.Resources.{IsResource, number_of};
ghost use Rattle.dlm_space.specs.Locks.{release_refusal, let_go};
ghost use Rattle.dlm_space.specs.Parts.{locks_of};
ghost use Rattle.msg_rounds.specs.Holds.{SenderHolds, NodeHolds};
ghost use Rattle.msg_rounds.specs.Locks.{token_res, token_asked, message_asked, published, finished, quitted};
ghost use Rattle.msg_rounds.specs.Phases.{sender_word, has_message, may_quit};
ghost use Rattle.msg_rounds.specs.Refusals.{busy, granted_refusal, ask_token_refusal, ask_message_refusal, token_granted_refusal, message_granted_refusal, ack_granted_refusal, offer_refusal, void_refusal, publish_refusal, finish_refusal, quit_refusal};

use crate::{Receiver, ReceiverPhase, RoundError, SenderPhase, calls};
use dlm_modes::{Block, Mode};
use dlm_space::Space;
use mdc_types::{NodeId, Res, Word};
use std::marker::Model;

/// A node as the sender of a message. A refused call changes nothing.
///
/// Each call takes the lock space and the node, which is below 16.
///
/// Contracts see the phase.
#[derive(Clone, Copy)]
pub struct Sender {
    phase: SenderPhase,
}

impl Model for Sender {
    ghost use Rattle.msg_rounds.specs.declared.phases.SenderPhase.{SenderPhase};

    ghost Value = { SenderPhase };

    ghost view = { λ s. s.phase };

    ghost inverse = { λ p. record { phase = p } };
}

// EX on the resource is granted to the node.
fn granted(space: &Space, node: NodeId, res: Res) -> Result<(), RoundError>
    requires node { node < 16 }
    requires res { IsResource res }
    ensures { result_err result ≡ granted_refusal (locks_of space.now) node (number_of res) res }
{
    match space.holder(res.number(), node) {
        Some(Mode::EX) => Ok(()),
        _ => Err(RoundError::NotGranted(res)),
    }
}

// The node isn't receiving.
fn not_receiving(receiver: &Receiver) -> Result<(), RoundError>
    ensures { result_err result ≡ busy receiver.now.phase }
{
    match receiver.receiver_phase() {
        ReceiverPhase::Idle => Ok(()),
        _ => Err(RoundError::ReceiverBusy(receiver.phase())),
    }
}

impl Sender {
    /// An idle sender.
    pub fn new() -> Sender
        ensures { result ≡ SenderPhase.Idle }
    {
        Sender {
            phase: SenderPhase::Idle,
        }
    }

    pub fn sender_phase(&self) -> SenderPhase
        ensures { result ≡ self.now }
    {
        self.phase
    }

    /// The word that `NotPhase` gives for the phase.
    pub fn phase(&self) -> Word
        ensures { result ≡ sender_word self.now }
    {
        match self.phase {
            SenderPhase::Idle => Word::Idle,
            SenderPhase::TokenAsked => Word::TokenAsked,
            SenderPhase::TokenHeld => Word::TokenHeld,
            SenderPhase::MessageAsked => Word::MessageAsked,
            SenderPhase::MessageHeld => Word::MessageHeld,
            SenderPhase::Offered => Word::Offered,
            SenderPhase::Published => Word::Published,
            SenderPhase::Granted => Word::Granted,
        }
    }

    fn not_phase(&self) -> RoundError
        ensures { result ≡ RoundError.NotPhase (sender_word self.now) }
    {
        RoundError::NotPhase(self.phase())
    }

    // `message` is held, and nothing is published.
    fn has_message(&self) -> bool
        ensures { result ≡ has_message self.now }
    {
        matches!(self.phase, SenderPhase::MessageHeld | SenderPhase::Offered)
    }

    fn may_quit(&self) -> bool
        ensures { result ≡ may_quit self.now }
    {
        self.has_message() || matches!(self.phase, SenderPhase::TokenHeld)
    }

    // `token` is let go, and the sender is idle.
    fn end(&mut self, space: &mut Space, node: NodeId)
        requires node { node < 16 }
        requires held { release_refusal (locks_of space.old token_res) node ≡ None }
        ensures phase { self.new ≡ SenderPhase.Idle }
        ensures locks { locks_of space.new ≡ with_at (locks_of space.old) token_res (let_go (locks_of space.old token_res) node) }
    {
        calls::let_go(space, node, Res::Token);
        self.phase = SenderPhase::Idle;
    }

    /// EX on `token` is asked. Needs idle; `ReceiverBusy` where the node's receiver isn't idle.
    pub fn ask_token(
        &mut self,
        space: &mut Space,
        node: NodeId,
        receiver: &Receiver,
    ) -> Result<(), RoundError>
        requires node { node < 16 }
        requires holds { SenderHolds (locks_of space.old) node self.old }
        ensures refused { result_err result ≡ ask_token_refusal self.old receiver.now.phase }
        ensures phase { OnOk result (self.new ≡ SenderPhase.TokenAsked) }
        ensures locks { OnOk result (locks_of space.new ≡ token_asked (locks_of space.old) node) }
        ensures err { OnErr result ((self.new ≡ self.old) × (space.new ≡ space.old)) }
    {
        let SenderPhase::Idle = self.phase else {
            return Err(self.not_phase());
        };
        not_receiving(receiver)?;
        calls::ask(space, node, Res::Token);
        self.phase = SenderPhase::TokenAsked;
        Ok(())
    }

    /// The sender was told that EX on `token` is granted. Needs token-asked; `NotGranted` where it
    /// isn't.
    pub fn token_granted(&mut self, space: &mut Space, node: NodeId) -> Result<(), RoundError>
        requires { node < 16 }
        ensures refused { result_err result ≡ token_granted_refusal (locks_of space.old) node self.old }
        ensures phase { OnOk result (self.new ≡ SenderPhase.TokenHeld) }
        ensures space { space.new ≡ space.old }
        ensures err { OnErr result (self.new ≡ self.old) }
    {
        let SenderPhase::TokenAsked = self.phase else {
            return Err(self.not_phase());
        };
        granted(space, node, Res::Token)?;
        self.phase = SenderPhase::TokenHeld;
        Ok(())
    }

    /// EX on `message` is asked. Needs token-held; `ReceiverBusy` where the node's receiver isn't idle.
    pub fn ask_message(
        &mut self,
        space: &mut Space,
        node: NodeId,
        receiver: &Receiver,
    ) -> Result<(), RoundError>
        requires node { node < 16 }
        requires holds { NodeHolds (locks_of space.old) node self.old receiver.now.phase }
        ensures refused { result_err result ≡ ask_message_refusal self.old receiver.now.phase }
        ensures phase { OnOk result (self.new ≡ SenderPhase.MessageAsked) }
        ensures locks { OnOk result (locks_of space.new ≡ message_asked (locks_of space.old) node) }
        ensures err { OnErr result ((self.new ≡ self.old) × (space.new ≡ space.old)) }
    {
        let SenderPhase::TokenHeld = self.phase else {
            return Err(self.not_phase());
        };
        not_receiving(receiver)?;
        calls::ask(space, node, Res::Message);
        self.phase = SenderPhase::MessageAsked;
        Ok(())
    }

    /// The sender was told that EX on `message` is granted. Needs message-asked; `NotGranted` where it
    /// isn't.
    pub fn message_granted(&mut self, space: &mut Space, node: NodeId) -> Result<(), RoundError>
        requires { node < 16 }
        ensures refused { result_err result ≡ message_granted_refusal (locks_of space.old) node self.old }
        ensures phase { OnOk result (self.new ≡ SenderPhase.MessageHeld) }
        ensures space { space.new ≡ space.old }
        ensures err { OnErr result (self.new ≡ self.old) }
    {
        let SenderPhase::MessageAsked = self.phase else {
            return Err(self.not_phase());
        };
        granted(space, node, Res::Message)?;
        self.phase = SenderPhase::MessageHeld;
        Ok(())
    }

    /// What the message is to say is settled. Needs message-held.
    pub fn offer(&mut self, space: &mut Space, node: NodeId) -> Result<(), RoundError>
        ensures refused { result_err result ≡ offer_refusal self.old }
        ensures phase { OnOk result (self.new ≡ SenderPhase.Offered) }
        ensures space { space.new ≡ space.old }
        ensures err { OnErr result (self.new ≡ self.old) }
    {
        let SenderPhase::MessageHeld = self.phase else {
            return Err(self.not_phase());
        };
        self.phase = SenderPhase::Offered;
        Ok(())
    }

    /// The offer is taken back. Needs offered.
    pub fn void(&mut self, space: &mut Space, node: NodeId) -> Result<(), RoundError>
        ensures refused { result_err result ≡ void_refusal self.old }
        ensures phase { OnOk result (self.new ≡ SenderPhase.MessageHeld) }
        ensures space { space.new ≡ space.old }
        ensures err { OnErr result (self.new ≡ self.old) }
    {
        let SenderPhase::Offered = self.phase else {
            return Err(self.not_phase());
        };
        self.phase = SenderPhase::MessageHeld;
        Ok(())
    }

    /// The message is written: `message` goes from EX to CW with the block, and EX is asked on `ack`.
    /// Needs offered.
    pub fn publish(
        &mut self,
        space: &mut Space,
        node: NodeId,
        block: &Block,
    ) -> Result<(), RoundError>
        requires node { node < 16 }
        requires holds { SenderHolds (locks_of space.old) node self.old }
        ensures refused { result_err result ≡ publish_refusal self.old }
        ensures phase { OnOk result (self.new ≡ SenderPhase.Published) }
        ensures locks { OnOk result (locks_of space.new ≡ published (locks_of space.old) node block.now) }
        ensures err { OnErr result ((self.new ≡ self.old) × (space.new ≡ space.old)) }
    {
        let SenderPhase::Offered = self.phase else {
            return Err(self.not_phase());
        };
        calls::lower(space, node, Res::Message, Mode::CW, Some(*block));
        calls::raise(space, node, Res::Ack, Mode::EX);
        self.phase = SenderPhase::Published;
        Ok(())
    }

    /// The sender was told that EX on `ack` is granted: all receivers have processed the message. Needs
    /// published; `NotGranted` where it isn't.
    pub fn ack_granted(&mut self, space: &mut Space, node: NodeId) -> Result<(), RoundError>
        requires { node < 16 }
        ensures refused { result_err result ≡ ack_granted_refusal (locks_of space.old) node self.old }
        ensures phase { OnOk result (self.new ≡ SenderPhase.Granted) }
        ensures space { space.new ≡ space.old }
        ensures err { OnErr result (self.new ≡ self.old) }
    {
        let SenderPhase::Published = self.phase else {
            return Err(self.not_phase());
        };
        granted(space, node, Res::Ack)?;
        self.phase = SenderPhase::Granted;
        Ok(())
    }

    /// The round is over: `ack` goes from EX to CR, and `message` and `token` are let go. Needs granted.
    pub fn finish(&mut self, space: &mut Space, node: NodeId) -> Result<(), RoundError>
        requires node { node < 16 }
        requires holds { SenderHolds (locks_of space.old) node self.old }
        ensures refused { result_err result ≡ finish_refusal self.old }
        ensures phase { OnOk result (self.new ≡ SenderPhase.Idle) }
        ensures locks { OnOk result (locks_of space.new ≡ finished (locks_of space.old) node) }
        ensures err { OnErr result ((self.new ≡ self.old) × (space.new ≡ space.old)) }
    {
        let SenderPhase::Granted = self.phase else {
            return Err(self.not_phase());
        };
        calls::lower(space, node, Res::Ack, Mode::CR, None);
        calls::let_go(space, node, Res::Message);
        self.end(space, node);
        Ok(())
    }

    /// The sender gives its round up: `message`, where it is held, and `token` are let go. Needs
    /// token-held, message-held or offered.
    pub fn quit(&mut self, space: &mut Space, node: NodeId) -> Result<(), RoundError>
        requires node { node < 16 }
        requires holds { SenderHolds (locks_of space.old) node self.old }
        ensures refused { result_err result ≡ quit_refusal self.old }
        ensures phase { OnOk result (self.new ≡ SenderPhase.Idle) }
        ensures locks { OnOk result (locks_of space.new ≡ quitted (locks_of space.old) node self.old) }
        ensures err { OnErr result ((self.new ≡ self.old) × (space.new ≡ space.old)) }
    {
        if !self.may_quit() {
            return Err(self.not_phase());
        }
        if self.has_message() {
            calls::let_go(space, node, Res::Message);
        }
        self.end(space, node);
        Ok(())
    }
}
