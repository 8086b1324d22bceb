// Changes of the state that several rows make.
ghost use Rattle.std.specs.Prelude.{◌≡◌, ◌<◌, Some, None, false, length, slice_set};
ghost use Rattle.cluster_model.specs.Changes.{headed, sender_idle, sender_now, voided, with_view, no_view, no_copy, not_adding, node_out};
ghost use Rattle.cluster_model.specs.Failures.{leg_lost};
ghost use Rattle.leg_failure.specs.Views.{view_of, is_last};
ghost use Rattle.dlm_modes.specs.Points.{with_at};
ghost use Rattle.mdc_types.specs.Bits.{has_bit};
ghost use Rattle.node_bitmaps.specs.Bitmap.{with_new_legs, forgotten};
ghost use Rattle.cluster_model.specs.State.{Untried};
ghost use Rattle.world_state.specs.Kept.{core_of};
ghost use Rattle.world_state.specs.Changed.{covering_legs, ranges_dropped};

use crate::{CoreState, fresh_targets, rebuilding_of};
use dlm_space::Space;
use leg_failure::View;
use mdc_types::{LegId, NodeId, NodeState, Role, Roles, SectorNo};
use msg_rounds::{Sender, SenderPhase};
use suspend_ranges::SuspendList;

fn put_head(heads: &mut [u32; 8], l: LegId, s: SectorNo)
    requires { l < 8 }
    ensures heads { heads.new ≡ slice_set heads.old l s }
    ensures legs { length heads.old ≡ 8 }
{
    heads[l as usize] = s;
}

// An offer that isn't published yet is taken back.
fn take_back(sender: &mut Sender, space: &mut Space, n: NodeId)
    requires { sender.old ≡ SenderPhase.Offered }
    ensures sender { sender.new ≡ SenderPhase.MessageHeld }
    ensures space { space.new ≡ space.old }
{
    let _ = sender.void(space, n);
}

impl CoreState {
    /// The node's last transfer of data with the leg was of this sector.
    pub fn set_head(&mut self, n: NodeId, l: LegId, s: SectorNo)
        requires node { n < 16 }
        requires leg { l < 8 }
        ensures { core_of self.new ≡ headed (core_of self.old) n l (Some s) }
    {
        put_head(&mut self.heads[n as usize], l, s);
    }

    /// The sender's round is over, or was given up.
    pub fn sender_idle(&mut self, n: NodeId)
        requires { n < 16 }
        ensures { core_of self.new ≡ sender_idle (core_of self.old) n }
    {
        self.set_sender(n, Sender::new());
        self.set_offer(n, None);
    }

    // The sender is back at message-held.
    fn take_back(&mut self, n: NodeId)
        requires node { n < 16 }
        requires offered { (core_of self.old).sender n ≡ SenderPhase.Offered }
        ensures { core_of self.new ≡ sender_now (core_of self.old) n SenderPhase.MessageHeld }
    {
        take_back(&mut self.senders[n as usize], &mut self.space, n);
    }

    /// An offer that isn't published yet is void: the sender is back at message-held.
    pub fn void_offer(&mut self, n: NodeId)
        requires { n < 16 }
        ensures { core_of self.new ≡ voided (core_of self.old) n ((core_of self.old).sender n) }
    {
        if let SenderPhase::Offered = self.senders[n as usize].sender_phase() {
            self.take_back(n);
            self.set_offer(n, None);
        }
    }

    /// The node lost the leg, and an offer that isn't published yet is void.
    pub fn lose_leg(&mut self, n: NodeId, l: LegId)
        requires node { n < 16 }
        requires leg { l < 8 }
        requires more { is_last ((core_of self.old).view n) l ≡ false }
        ensures { core_of self.new ≡ leg_lost (core_of self.old) n l }
    {
        let mut view = self.views[n as usize];
        let _ = view.lose(l);
        self.void_offer(n);
        self.replace_view(n, view);
    }

    // Nothing is known of these legs.
    fn new_legs(&mut self, n: NodeId, legs: u8)
        requires { n < 16 }
        ensures { core_of self.new ≡ record (core_of self.old) {
          bitmap = with_at (core_of self.old).bitmap n (with_new_legs ((core_of self.old).bitmap n) (has_bit legs));
        } }
    {
        self.bitmaps.new_legs(n, legs);
    }

    // The node's pass covers these legs alone.
    fn cover_only(&mut self, n: NodeId, legs: u8)
        requires { n < 16 }
        ensures { core_of self.new ≡ record (core_of self.old) {
          copy = with_at (core_of self.old).copy n (covering_legs ((core_of self.old).copy n) (has_bit legs));
        } }
    {
        self.copies.cover_only(n, legs);
    }

    fn seen_view(&self, n: NodeId) -> View
        requires { n < 16 }
        ensures { view_of result ≡ (core_of self.now).view n }
    {
        self.views[n as usize]
    }

    /// The node has another view: nothing is known of legs that become targets, and its pass covers
    /// rebuilding legs alone.
    pub fn set_view(&mut self, n: NodeId, view: View)
        requires { n < 16 }
        ensures { core_of self.new ≡ with_view (core_of self.old) n (view_of view) }
    {
        let was = self.seen_view(n);
        let fresh = fresh_targets(&was, &view);
        let rebuilding = rebuilding_of(view.roles());
        self.new_legs(n, fresh);
        self.cover_only(n, rebuilding);
        self.replace_view(n, view);
    }

    // A node that isn't in has no roles and no size.
    fn forget_view(&mut self, n: NodeId)
        requires { n < 16 }
        ensures { core_of self.new ≡ record (core_of self.old) { view = with_at (core_of self.old).view n no_view } }
    {
        let spares = Roles {
            legs: [Role::Spare; 8],
        };
        self.replace_view(n, View::new(spares, 0));
    }

    fn forget_bits(&mut self, n: NodeId)
        requires { n < 16 }
        ensures { core_of self.new ≡ record (core_of self.old) {
          bitmap = with_at (core_of self.old).bitmap n (forgotten ((core_of self.old).bitmap n));
        } }
    {
        self.bitmaps.forget(n);
    }

    fn forget_copy(&mut self, n: NodeId)
        requires { n < 16 }
        ensures { core_of self.new ≡ record (core_of self.old) { copy = with_at (core_of self.old).copy n no_copy } }
    {
        self.copies.end(n);
    }

    fn forget_recovery(&mut self, n: NodeId)
        requires { n < 16 }
        ensures { core_of self.new ≡ record (core_of self.old) { recovery = with_at (core_of self.old).recovery n None } }
    {
        self.recoveries.close(n);
    }

    fn forget_addition(&mut self, n: NodeId)
        requires { n < 16 }
        ensures { core_of self.new ≡ record (core_of self.old) { adding = with_at (core_of self.old).adding n not_adding } }
    {
        self.additions.forget(n);
    }

    // What the node knows of the legs, and what it was to say or heard.
    fn forget_rounds(&mut self, n: NodeId)
        requires { n < 16 }
        ensures { core_of self.new ≡ record (core_of self.old) {
          view = with_at (core_of self.old).view n no_view;
          offer = with_at (core_of self.old).offer n None;
          heard = with_at (core_of self.old).heard n None;
          tried = with_at (core_of self.old).tried n (λ l. Untried);
        } }
    {
        self.forget_view(n);
        self.set_offer(n, None);
        self.set_heard(n, None);
        self.forget_tries(n);
    }

    fn forget_ranges(&mut self, n: NodeId)
        requires { n < 16 }
        ensures { core_of self.new ≡ record (core_of self.old) { suspended = ranges_dropped (core_of self.old).suspended n } }
    {
        self.set_suspended(n, SuspendList::new());
    }

    // What it copies, recovers and adds.
    fn forget_repair(&mut self, n: NodeId)
        requires { n < 16 }
        ensures { core_of self.new ≡ record (core_of self.old) {
          copy = with_at (core_of self.old).copy n no_copy;
          recovery = with_at (core_of self.old).recovery n None;
          adding = with_at (core_of self.old).adding n not_adding;
        } }
    {
        self.forget_copy(n);
        self.forget_recovery(n);
        self.forget_addition(n);
    }

    /// The node isn't in any more: it is out, and keeps nothing but its marks.
    pub fn node_out(&mut self, n: NodeId)
        requires { n < 16 }
        ensures { core_of self.new ≡ node_out (core_of self.old) n }
    {
        self.set_state(n, NodeState::Out);
        self.forget_rounds(n);
        self.forget_bits(n);
        self.forget_ranges(n);
        self.forget_repair(n);
    }
}
