ghost use Rattle.std.specs.Prelude.{◌≡◌, ◌<◌, None};
ghost use Rattle.mdc_types.specs.Bits.{has_bit};
ghost use Rattle.mdc_types.specs.Geometry.{nodes_of};
ghost use Rattle.leg_failure.specs.Views.{is_target};
ghost use Rattle.msg_rounds.specs.Phases.{has_published};
ghost use Rattle.msg_rounds.specs.Refusals.{is_sender_idle};
ghost use Rattle.node_bitmaps.specs.Bitmap.{first_set, old_target};
ghost use Rattle.cluster_model.specs.After.{after};
ghost use Rattle.cluster_model.specs.Guards.{refused_by, draining, reading};
ghost use Rattle.cluster_model.specs.Outcomes.{outcome_of};
ghost use Rattle.cluster_model.specs.Phases.{is_none, copy_is};
ghost use Rattle.cluster_model.specs.State.{sizes};
ghost use Rattle.cluster_model.specs.Table.{refusal};
ghost use Rattle.world_members.specs.Changes.{receivers_told, range_dropped};
ghost use Rattle.world_state.specs.Kept.{Judges, core_of};
ghost use Rattle.world_state.specs.Ready.{Ready};

use crate::receiving::receives_nothing;
use crate::{changes, tables};
use mdc_types::{Event, LegId, NodeId, Outcome, Part, Refusal, Word};
use msg_rounds::SenderPhase;
use world_state::{CoreState, check};

fn sends_nothing(core: &CoreState, n: NodeId) -> bool
    requires { n < nodes_of core.now.identity.geometry }
    ensures { result ≡ is_sender_idle ((core_of core.now).sender n) }
{
    matches!(core.sender(n).sender_phase(), SenderPhase::Idle)
}

fn is_none(word: Word) -> bool
    ensures { result ≡ is_none word }
{
    matches!(word, Word::Nothing)
}

// The node copies nothing.
fn check_no_copy(core: &CoreState, n: NodeId) -> Result<(), Refusal>
    requires { n < nodes_of core.now.identity.geometry }
    ensures { Judges result (copy_is (core_of core.now) n is_none) }
{
    let word = core.copies.word(n);
    check(is_none(word), Refusal::NotPhase(Part::Copy, word))
}

// The node has no live write.
fn check_drained(core: &CoreState, n: NodeId) -> Result<(), Refusal>
    requires { n < nodes_of core.now.identity.geometry }
    ensures { Judges result (draining (core_of core.now) n) }
{
    match core.requests.write_from(n, 0) {
        Some(k) => Err(Refusal::Draining(k)),
        None => Ok(()),
    }
}

// The node has no live read.
fn check_reads(core: &CoreState, n: NodeId) -> Result<(), Refusal>
    requires { n < nodes_of core.now.identity.geometry }
    ensures { Judges result (reading (core_of core.now) n) }
{
    match core.requests.read_from(n, 0) {
        Some(k) => Err(Refusal::Reading(k)),
        None => Ok(()),
    }
}

// No bit of the node's slot is set.
fn check_clean(core: &CoreState, n: NodeId) -> Result<(), Refusal>
    requires { n < nodes_of core.now.identity.geometry }
    ensures { Judges result (refused_by Refusal.Unclean
        (first_set (sizes (core_of core.now)) ((core_of core.now).bitmap n))) }
{
    match core.bitmaps.first_set(n) {
        Some(c) => Err(Refusal::Unclean(c)),
        None => Ok(()),
    }
}

fn old_target(core: &CoreState, n: NodeId, targets: u8) -> Option<LegId>
    requires node { n < nodes_of core.now.identity.geometry }
    requires targets { has_bit targets ≡ is_target ((core_of core.now).view n) }
    ensures { result ≡ old_target (sizes (core_of core.now)) ((core_of core.now).bitmap n)
        (is_target ((core_of core.now).view n)) }
{
    core.bitmaps.old_target(n, targets)
}

// Each page of the slot is fresh on each target.
fn check_pages(core: &CoreState, n: NodeId) -> Result<(), Refusal>
    requires { n < nodes_of core.now.identity.geometry }
    ensures { Judges result (refused_by Refusal.PageOld
        (old_target (sizes (core_of core.now)) ((core_of core.now).bitmap n)
        (is_target ((core_of core.now).view n)))) }
{
    match old_target(core, n, core.view(n).targets()) {
        Some(l) => Err(Refusal::PageOld(l)),
        None => Ok(()),
    }
}

/// The guards of `leave n`.
pub fn may_leave(core: &CoreState, n: NodeId) -> Result<(), Refusal>
    ensures { Judges result (refusal (core_of core.now) (Event.Leave n)) }
{
    core.check_node(n)?;
    core.check_unfenced(n)?;
    core.check_live(n)?;
    core.check_up(n)?;
    core.check_sender(n, sends_nothing(core, n))?;
    core.check_receiver(n, receives_nothing(core, n))?;
    check_no_copy(core, n)?;
    check_drained(core, n)?;
    check_reads(core, n)?;
    check_clean(core, n)?;
    check_pages(core, n)
}

/// The node leaves with a clean slot.
pub fn leave(core: &mut CoreState, n: NodeId) -> Outcome
    requires accepted { refusal (core_of core.old) (Event.Leave n) ≡ None }
    requires ready { Ready (core_of core.old) }
    ensures outcome { result ≡ outcome_of (core_of core.old) (Event.Leave n) }
    ensures after { core_of core.new ≡ after (core_of core.old) (Event.Leave n) result }
{
    changes::leave_members(core, n);
    core.node_out(n);
    changes::leave_locks(core, n);
    Outcome::Done
}

/// The guards of `die n`.
pub fn may_die(core: &CoreState, n: NodeId) -> Result<(), Refusal>
    ensures { Judges result (refusal (core_of core.now) (Event.Die n)) }
{
    core.check_node(n)?;
    core.check_unfenced(n)?;
    core.check_live(n)
}

fn has_published(core: &CoreState, n: NodeId) -> bool
    requires { n < 16 }
    ensures { result ≡ has_published ((core_of core.now).sender n) }
{
    let phase = core.senders[n as usize].sender_phase();
    matches!(phase, SenderPhase::Published | SenderPhase::Granted)
}

// The receivers learn of the node's death, where they have its message.
fn tell_death(core: &mut CoreState, n: NodeId)
    requires { n < 16 }
    ensures { core_of core.new ≡ receivers_told (core_of core.old) n }
{
    let published = has_published(core, n);
    tables::tell_death(&mut core.receivers, &mut core.space, n, published);
}

// The node's range is suspended nowhere any more.
fn drop_range(core: &mut CoreState, n: NodeId)
    requires { n < 16 }
    ensures { core_of core.new ≡ range_dropped (core_of core.old) n }
{
    tables::drop_owner(&mut core.suspended, n);
}

/// The node dies.
pub fn die(core: &mut CoreState, n: NodeId) -> Outcome
    requires accepted { refusal (core_of core.old) (Event.Die n) ≡ None }
    requires ready { Ready (core_of core.old) }
    ensures outcome { result ≡ outcome_of (core_of core.old) (Event.Die n) }
    ensures after { core_of core.new ≡ after (core_of core.old) (Event.Die n) result }
{
    changes::fence(core, n);
    tell_death(core, n);
    core.sender_idle(n);
    core.node_out(n);
    drop_range(core, n);
    changes::lose_locks(core, n);
    changes::end_requests(core, n);
    Outcome::Done
}
