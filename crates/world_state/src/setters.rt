// One table's entry is replaced.
ghost use Rattle.std.specs.Prelude.{◌≡◌, ◌<◌};
ghost use Rattle.std.specs.Option.{option_map};
ghost use Rattle.dlm_modes.specs.Points.{with_at};
ghost use Rattle.leg_failure.specs.Views.{view_of};
ghost use Rattle.suspend_ranges.specs.Suspended.{ranges_of};
ghost use Rattle.cluster_model.specs.State.{Untried};
ghost use Rattle.world_state.specs.Kept.{core_of, offer_of};

use crate::{Attempt, CoreState, Offer};
use cluster_msgs::Msg;
use leg_failure::View;
use mdc_types::{NodeId, NodeState};
use msg_rounds::{Receiver, Sender};
use suspend_ranges::SuspendList;

impl CoreState {
    /// The node's state.
    #[tactic(auto, using(crate::proofs::Setting::state_set))]
    pub fn set_state(&mut self, n: NodeId, state: NodeState)
        requires { n < 16 }
        ensures { core_of self.new ≡ record (core_of self.old) { state = with_at (core_of self.old).state n state } }
    {
        self.states[n as usize] = state;
    }

    /// The node's view of the legs.
    #[tactic(auto, using(crate::proofs::Setting::view_set))]
    pub fn replace_view(&mut self, n: NodeId, view: View)
        requires { n < 16 }
        ensures { core_of self.new ≡ record (core_of self.old) { view = with_at (core_of self.old).view n (view_of view) } }
    {
        self.views[n as usize] = view;
    }

    /// What the node's round is to say.
    #[tactic(auto, using(crate::proofs::Setting::offer_set))]
    pub fn set_offer(&mut self, n: NodeId, offer: Option<Offer>)
        requires { n < 16 }
        ensures { core_of self.new ≡ record (core_of self.old) { offer = with_at (core_of self.old).offer n (option_map offer_of offer) } }
    {
        self.offers[n as usize] = offer;
    }

    /// The node as a sender.
    #[tactic(auto, using(crate::proofs::Setting::sender_set))]
    pub fn set_sender(&mut self, n: NodeId, sender: Sender)
        requires { n < 16 }
        ensures { core_of self.new ≡ record (core_of self.old) { sender = with_at (core_of self.old).sender n sender } }
    {
        self.senders[n as usize] = sender;
    }

    /// The node as a receiver.
    #[tactic(auto, using(crate::proofs::Setting::receiver_set))]
    pub fn set_receiver(&mut self, n: NodeId, receiver: Receiver)
        requires { n < 16 }
        ensures { core_of self.new ≡ record (core_of self.old) { receiver = with_at (core_of self.old).receiver n receiver } }
    {
        self.receivers[n as usize] = receiver;
    }

    /// The message that the node took.
    #[tactic(auto, using(crate::proofs::Setting::heard_set))]
    pub fn set_heard(&mut self, n: NodeId, heard: Option<Msg>)
        requires { n < 16 }
        ensures { core_of self.new ≡ record (core_of self.old) { heard = with_at (core_of self.old).heard n heard } }
    {
        self.heard[n as usize] = heard;
    }

    /// The ranges that the node's writes wait for.
    #[tactic(auto, using(crate::proofs::Setting::suspended_set))]
    pub fn set_suspended(&mut self, n: NodeId, ranges: SuspendList)
        requires { n < 16 }
        ensures { core_of self.new ≡ record (core_of self.old) { suspended = with_at (core_of self.old).suspended n (ranges_of ranges) } }
    {
        self.suspended[n as usize] = ranges;
    }

    /// No leg was tried.
    #[tactic(auto, using(crate::proofs::Setting::tries_set, crate::proofs::Setting::eight_untried))]
    pub fn forget_tries(&mut self, n: NodeId)
        requires { n < 16 }
        ensures { core_of self.new ≡ record (core_of self.old) { tried = with_at (core_of self.old).tried n (λ l. Untried) } }
    {
        self.tried[n as usize] = [Attempt::Untried; 8];
    }
}
