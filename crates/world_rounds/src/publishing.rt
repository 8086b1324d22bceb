// `publish`: what the offer says is published to all.
ghost use Rattle.std.specs.Prelude.{◌≡◌, ◌<◌, ◌&&◌, not, None, Some, true, length};
ghost use Rattle.std.specs.Option.{option_map};
ghost use Rattle.dlm_modes.specs.Guards.{first_of};
ghost use Rattle.dlm_space.specs.Locks.{convert_refusal};
ghost use Rattle.mdc_types.specs.Bits.{has_bit};
ghost use Rattle.mdc_types.specs.Geometry.{nodes_of};
ghost use Rattle.mdc_types.specs.Roles.{role_of, is_written};
ghost use Rattle.cluster_msgs.specs.Ranges.{IsRange};
ghost use Rattle.msg_rounds.specs.Holds.{SenderHolds};
ghost use Rattle.msg_rounds.specs.Locks.{published};
ghost use Rattle.msg_rounds.specs.Refusals.{is_ex, publish_refusal};
ghost use Rattle.world_rounds.specs.Tables.{suspended_of, suspended_with};
ghost use Rattle.cluster_model.specs.Changes.{no_new_dev, sender_now, device_unlocked};
ghost use Rattle.cluster_model.specs.Guards.{refused_by, draining, draining_in, reading};
ghost use Rattle.cluster_model.specs.Publishing.{unwritten_leg, wish_is_due, publish_wish, publish_offer, block_of};
ghost use Rattle.cluster_model.specs.Table.{refusal};
ghost use Rattle.cluster_model.specs.After.{after};
ghost use Rattle.cluster_model.specs.Outcomes.{outcome_of};
ghost use Rattle.world_state.specs.Kept.{core_of, offer_of, Judges};
ghost use Rattle.world_state.specs.Ready.{Ready};

use crate::{messages, tables};
use dlm_modes::{Block, Mode};
use mdc_types::{Event, LegId, NodeId, Outcome, Range, Refusal, Role, Wish, has_leg};
use msg_rounds::SenderPhase;
use suspend_ranges::SuspendList;
use world_state::{CoreState, Offer};

/// Refuses while an own write of the range is in flight.
pub fn check_drained_in(core: &CoreState, n: NodeId, r: Range) -> Result<(), Refusal>
    requires { n < nodes_of core.now.identity.geometry }
    ensures { Judges result (draining_in (core_of core.now) n r.lo r.hi) }
{
    match core.requests.drain(n, r) {
        None => Ok(()),
        Some(k) => Err(Refusal::Draining(k)),
    }
}

/// Refuses while an own write is in flight.
pub fn check_drained(core: &CoreState, n: NodeId) -> Result<(), Refusal>
    requires { n < nodes_of core.now.identity.geometry }
    ensures { Judges result (draining (core_of core.now) n) }
{
    match core.requests.write_from(n, 0) {
        None => Ok(()),
        Some(k) => Err(Refusal::Draining(k)),
    }
}

/// Refuses while an own read is in flight.
pub fn check_reads_nothing(core: &CoreState, n: NodeId) -> Result<(), Refusal>
    requires { n < nodes_of core.now.identity.geometry }
    ensures { Judges result (reading (core_of core.now) n) }
{
    match core.requests.read_from(n, 0) {
        None => Ok(()),
        Some(k) => Err(Refusal::Reading(k)),
    }
}

// The proposed roles want the leg written, and it doesn't have the proposed superblock.
fn is_unwritten(offer: &Offer, l: LegId) -> bool
    requires { l < 8 }
    ensures { result ≡
        (is_written (role_of offer.now.roles l) && not (has_bit offer.now.written l)) }
{
    matches!(offer.roles.of(l), Role::Working | Role::Rebuilding) && !has_leg(offer.written, l)
}

/// The first leg that the proposed roles want written and that doesn't have the superblock.
pub fn unwritten_leg(offer: &Offer) -> Option<LegId>
    ensures { result ≡ unwritten_leg (offer_of offer.now) }
{
    for l in 0..8 {
        if is_unwritten(offer, l) {
            return Some(l);
        }
    }
    None
}

// Refuses before the proposed superblock stands on each leg that the proposed roles want written.
fn check_written(offer: &Offer) -> Result<(), Refusal>
    ensures { Judges result (refused_by Refusal.NotWritten (unwritten_leg (offer_of offer.now))) }
{
    match unwritten_leg(offer) {
        None => Ok(()),
        Some(l) => Err(Refusal::NotWritten(l)),
    }
}

// What the offer asks before it is published.
fn check_due(core: &CoreState, n: NodeId, offer: &Offer) -> Result<(), Refusal>
    requires { n < nodes_of core.now.identity.geometry }
    ensures { Judges result
        (first_of (wish_is_due (core_of core.now) n (offer_of offer.now) offer.now.wish)) }
{
    match offer.wish {
        Wish::Range(r) => check_drained_in(core, n, r),
        Wish::Unclean => {
            check_drained(core, n)?;
            check_reads_nothing(core, n)
        }
        Wish::NewDisk(_) | Wish::Remove(_) | Wish::ReAdd(_) => Ok(()),
        Wish::Meta | Wish::Spare(_) | Wish::Rebuild(_) | Wish::Work(_) | Wish::Grow(_) => {
            check_written(offer)
        }
    }
}

/// The guards of `publish`.
pub fn may_publish(core: &CoreState, n: NodeId) -> Result<(), Refusal>
    ensures { Judges result (refusal (core_of core.now) (Event.Publish n)) }
{
    core.check_node(n)?;
    core.check_unfenced(n)?;
    core.check_live(n)?;
    let has_offered = matches!(core.sender(n).sender_phase(), SenderPhase::Offered);
    core.check_sender(n, has_offered)?;
    match messages::offer(core, n) {
        None => Ok(()),
        Some(offer) => check_due(core, n, &offer),
    }
}

// The message is published, and EX on `no-new-dev` goes to CR.
fn send_block(core: &mut CoreState, n: NodeId, block: &Block)
    requires node { n < 16 }
    requires holds { SenderHolds (core_of core.old).locks n ((core_of core.old).sender n) }
    requires may { publish_refusal ((core_of core.old).sender n) ≡ None }
    requires unlock { is_ex (((core_of core.old).locks no_new_dev).held n) ≡ true
        → convert_refusal ((core_of core.old).locks no_new_dev) n ≡ None }
    ensures { core_of core.new ≡ record (sender_now (core_of core.old) n SenderPhase.Published) {
      locks = device_unlocked (published (core_of core.old).locks n block.now) n;
    } }
{
    tables::publish(&mut core.senders, &mut core.space, n, block);
    tables::unlock_device(&mut core.space, n);
}

#[tactic(auto, using(crate::proofs::Saying::range_put))]
fn put_range(suspended: &mut [SuspendList; 16], n: NodeId, r: Range)
    requires { n < 16 }
    ensures ranges { suspended_of suspended.new ≡ suspended_with (suspended_of suspended.old) n r }
    ensures sixteen { length suspended.new ≡ 16 }
{
    suspended[n as usize].put(n, r);
}

// The node's range is told: its window closes, and the range replaces the one in its own list.
fn tell_range(core: &mut CoreState, n: NodeId, r: Range)
    requires node { n < 16 }
    requires range { IsRange r }
    requires held { ((core_of core.old).locks n).held n ≡ Some Mode.PW }
    requires may { convert_refusal ((core_of core.old).locks n) n ≡ None }
    ensures { core_of core.new ≡ publish_wish (core_of core.old) n (Wish.Range r) }
{
    core.copies.close_window(n);
    put_range(&mut core.suspended, n, r);
    tables::tell_range(&mut core.space, n, r);
}

// What a publish does beside its message: a range is told.
fn publish_wish(core: &mut CoreState, n: NodeId, wish: &Wish)
    requires node { n < 16 }
    requires range { (r : Range) → wish.now ≡ Wish.Range r → IsRange r }
    requires held { ((core_of core.old).locks n).held n ≡ Some Mode.PW }
    requires may { convert_refusal ((core_of core.old).locks n) n ≡ None }
    ensures { core_of core.new ≡ publish_wish (core_of core.old) n wish.now }
{
    match wish {
        Wish::Range(r) => tell_range(core, n, *r),
        Wish::Meta
        | Wish::Spare(_)
        | Wish::Rebuild(_)
        | Wish::Work(_)
        | Wish::NewDisk(_)
        | Wish::Remove(_)
        | Wish::ReAdd(_)
        | Wish::Unclean
        | Wish::Grow(_) => {}
    }
}

// The offer's message is published.
fn publish_offer(core: &mut CoreState, n: NodeId, offer: &Offer, block: &Block)
    requires accepted { refusal (core_of core.old) (Event.Publish n) ≡ None }
    requires ready { Ready (core_of core.old) }
    requires offers { (core_of core.old).offer n ≡ Some (offer_of offer.now) }
    requires block { block.now ≡ block_of (core_of core.old) n (offer_of offer.now) }
    ensures { core_of core.new ≡ publish_offer (core_of core.old) n (Some (offer_of offer.now)) }
{
    send_block(core, n, block);
    publish_wish(core, n, &offer.wish);
}

/// What the offer says is published to all.
pub fn publish(core: &mut CoreState, n: NodeId) -> Outcome
    requires accepted { refusal (core_of core.old) (Event.Publish n) ≡ None }
    requires ready { Ready (core_of core.old) }
    ensures outcome { result ≡ outcome_of (core_of core.old) (Event.Publish n) }
    ensures after { core_of core.new ≡ after (core_of core.old) (Event.Publish n) result }
{
    let Some(offer) = messages::offer(core, n) else {
        unreachable!()
    };
    let block = messages::block_of(core, n, &offer);
    publish_offer(core, n, &offer, &block);
    Outcome::Done
}
