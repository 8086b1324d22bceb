// Guards that several rows have.
ghost use Rattle.std.specs.Prelude.{◌≡◌, ◌<◌, not, OnOk};
ghost use Rattle.dlm_modes.specs.Guards.{unless};
ghost use Rattle.mdc_types.specs.Geometry.{nodes_of};
ghost use Rattle.mdc_types.specs.Roles.{state_word};
ghost use Rattle.leg_failure.specs.Views.{view_of, is_target, unacked_leg, working_leg, is_last};
ghost use Rattle.cluster_model.specs.Guards.{no_node, not_fenced, is_out, no_leg, no_page, not_target, unacked};
ghost use Rattle.cluster_model.specs.Phases.{needs_up, state_is, is_up, is_joining, is_in, sender_is, receiver_is, receiver_busy};
ghost use Rattle.world_state.specs.Kept.{core_of, Judges};

use crate::CoreState;
use leg_failure::{Lose, View, least_leg};
use mdc_types::{LegId, NodeId, NodeState, PageNo, Part, Refusal, has_leg};
use msg_rounds::{Receiver, ReceiverPhase, Sender};

/// Refuses so where the test fails.
pub fn check(holds: bool, refusal: Refusal) -> Result<(), Refusal>
    ensures { Judges result (unless holds refusal) }
{
    if holds { Ok(()) } else { Err(refusal) }
}

impl CoreState {
    /// Refuses a node that there isn't.
    pub fn check_node(&self, n: NodeId) -> Result<(), Refusal>
        ensures { Judges result (no_node (core_of self.now) n) }
    {
        check(n < self.identity.geometry.nodes(), Refusal::NoNode(n))
    }

    /// Refuses a node that died and whose slot is pending.
    pub fn check_unfenced(&self, n: NodeId) -> Result<(), Refusal>
        requires { n < nodes_of self.now.identity.geometry }
        ensures { Judges result (not_fenced (core_of self.now) n) }
    {
        check(!self.members.fenced(n), Refusal::Fenced(n))
    }

    /// Where the node is.
    pub fn state(&self, n: NodeId) -> NodeState
        requires { n < nodes_of self.now.identity.geometry }
        ensures { result ≡ (core_of self.now).state n }
    {
        self.states[n as usize]
    }

    /// Refuses a node that isn't live.
    pub fn check_live(&self, n: NodeId) -> Result<(), Refusal>
        requires { n < nodes_of self.now.identity.geometry }
        ensures { Judges result (unless (not (is_out ((core_of self.now).state n))) (Refusal.NotUp n)) }
    {
        check(!matches!(self.state(n), NodeState::Out), Refusal::NotUp(n))
    }

    fn not_state(&self, n: NodeId) -> Refusal
        requires { n < nodes_of self.now.identity.geometry }
        ensures { result ≡ Refusal.NotPhase Part.State (state_word ((core_of self.now).state n)) }
    {
        Refusal::NotPhase(Part::State, self.state(n).word())
    }

    /// Needs an up node.
    pub fn check_up(&self, n: NodeId) -> Result<(), Refusal>
        requires { n < nodes_of self.now.identity.geometry }
        ensures { Judges result (needs_up (core_of self.now) n) }
    {
        check(matches!(self.state(n), NodeState::Up), self.not_state(n))
    }

    /// Needs a node that is joining.
    pub fn check_joining(&self, n: NodeId) -> Result<(), Refusal>
        requires { n < nodes_of self.now.identity.geometry }
        ensures { Judges result (state_is (core_of self.now) n is_joining) }
    {
        check(
            matches!(self.state(n), NodeState::Joining),
            self.not_state(n),
        )
    }

    /// Needs a node that is loaded or up.
    pub fn check_in(&self, n: NodeId) -> Result<(), Refusal>
        requires { n < nodes_of self.now.identity.geometry }
        ensures { Judges result (state_is (core_of self.now) n is_in) }
    {
        let is_in = matches!(self.state(n), NodeState::Loaded | NodeState::Up);
        check(is_in, self.not_state(n))
    }

    /// The node as a sender.
    pub fn sender(&self, n: NodeId) -> &Sender
        requires { n < nodes_of self.now.identity.geometry }
        ensures { result.now ≡ (core_of self.now).sender n }
    {
        &self.senders[n as usize]
    }

    /// The node as a receiver.
    pub fn receiver(&self, n: NodeId) -> &Receiver
        requires { n < nodes_of self.now.identity.geometry }
        ensures { result.now ≡ (core_of self.now).receiver n }
    {
        &self.receivers[n as usize]
    }

    /// Refuses the sender's phase where it isn't right.
    pub fn check_sender(&self, n: NodeId, right: bool) -> Result<(), Refusal>
        requires { n < nodes_of self.now.identity.geometry }
        ensures { Judges result (sender_is (core_of self.now) n right) }
    {
        check(
            right,
            Refusal::NotPhase(Part::Sender, self.sender(n).phase()),
        )
    }

    /// Refuses the receiver's phase where it isn't right.
    pub fn check_receiver(&self, n: NodeId, right: bool) -> Result<(), Refusal>
        requires { n < nodes_of self.now.identity.geometry }
        ensures { Judges result (receiver_is (core_of self.now) n right) }
    {
        check(
            right,
            Refusal::NotPhase(Part::Receiver, self.receiver(n).phase()),
        )
    }

    /// Refuses a node whose receiver isn't idle.
    pub fn check_receives_nothing(&self, n: NodeId) -> Result<(), Refusal>
        requires { n < nodes_of self.now.identity.geometry }
        ensures { Judges result (receiver_busy (core_of self.now) n) }
    {
        let is_idle = matches!(self.receiver(n).receiver_phase(), ReceiverPhase::Idle);
        check(is_idle, Refusal::ReceiverBusy(self.receiver(n).phase()))
    }

    /// Refuses a leg that there isn't: the legs are below 8.
    pub fn check_leg(&self, l: LegId) -> Result<(), Refusal>
        ensures judged { Judges result (no_leg (core_of self.now) l) }
        ensures below { OnOk result (l < 8) }
    {
        check(l < self.identity.geometry.legs(), Refusal::NoLeg(l))
    }

    /// Refuses a page that isn't in use.
    pub fn check_page(&self, p: PageNo) -> Result<(), Refusal>
        ensures { Judges result (no_page (core_of self.now) p) }
    {
        check(p < self.identity.geometry.pages(), Refusal::NoPage(p))
    }

    /// The node's view of the legs.
    pub fn view(&self, n: NodeId) -> &View
        requires { n < nodes_of self.now.identity.geometry }
        ensures { view_of result.now ≡ (core_of self.now).view n }
    {
        &self.views[n as usize]
    }

    /// Whether the node writes to the leg.
    pub fn is_target(&self, n: NodeId, l: LegId) -> bool
        requires node { n < nodes_of self.now.identity.geometry }
        requires leg { l < 8 }
        ensures { result ≡ is_target ((core_of self.now).view n) l }
    {
        has_leg(self.view(n).targets(), l)
    }

    /// Refuses a leg that the node doesn't write to.
    pub fn check_target(&self, n: NodeId, l: LegId) -> Result<(), Refusal>
        requires node { n < nodes_of self.now.identity.geometry }
        requires leg { l < 8 }
        ensures { Judges result (not_target (core_of self.now) n l) }
    {
        check(self.is_target(n, l), Refusal::NotTarget(l))
    }

    /// The first leg of which the others don't know yet what the node knows.
    pub fn unacked_leg(&self, n: NodeId) -> Option<LegId>
        requires { n < nodes_of self.now.identity.geometry }
        ensures { result ≡ unacked_leg ((core_of self.now).view n) }
    {
        least_leg(self.view(n).unacked())
    }

    /// The first leg that the node reads from.
    pub fn working_leg(&self, n: NodeId) -> Option<LegId>
        requires { n < nodes_of self.now.identity.geometry }
        ensures { result ≡ working_leg ((core_of self.now).view n) }
    {
        least_leg(self.view(n).working())
    }

    /// Whether the leg is the only one that the node reads from.
    pub fn is_last(&self, n: NodeId, l: LegId) -> bool
        requires node { n < nodes_of self.now.identity.geometry }
        requires leg { l < 8 }
        ensures { result ≡ is_last ((core_of self.now).view n) l }
    {
        let mut view = *self.view(n);
        matches!(view.lose(l), Lose::LastLeg)
    }

    /// Refuses a node with a leg of which the others don't know yet what it knows.
    pub fn check_acked(&self, n: NodeId) -> Result<(), Refusal>
        requires { n < nodes_of self.now.identity.geometry }
        ensures { Judges result (unacked (core_of self.now) n) }
    {
        match self.unacked_leg(n) {
            None => Ok(()),
            Some(l) => Err(Refusal::Unacked(l)),
        }
    }
}
