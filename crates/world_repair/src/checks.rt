// Guards of copying, of additions and of recoveries.
ghost use Rattle.std.specs.Prelude.{◌≡◌, ◌<◌, ◌||◌, ◌&&◌, not};
ghost use Rattle.dlm_modes.specs.Guards.{unless};
ghost use Rattle.mdc_types.specs.Geometry.{nodes_of};
ghost use Rattle.msg_rounds.specs.Phases.{has_published};
ghost use Rattle.msg_rounds.specs.Refusals.{is_offered, is_sender_idle};
ghost use Rattle.leg_failure.specs.Views.{works};
ghost use Rattle.cluster_model.specs.Guards.{refused_by, found_or};
ghost use Rattle.cluster_model.specs.Phases.{copy_word, copy_is, is_none, is_held, is_window, is_buffer, has_lock};
ghost use Rattle.cluster_model.specs.Phases.{recovery_word, recovery_is, is_open, addition_is, is_unclean, offers, sender_is};
ghost use Rattle.cluster_model.specs.Passes.{not_offering_to_leave, open_window};
ghost use Rattle.cluster_model.specs.Gathering.{is_again, is_again_of, due_page, leg_to_gather};
ghost use Rattle.cluster_model.specs.Copying.{next_sector, buffer_of, uncopied_target};
ghost use Rattle.cluster_model.specs.Recovering.{pending_heir, leg_unread, leg_unmarked, leg_uncleared, chunk_needed};
ghost use Rattle.world_state.specs.Kept.{core_of, Judges};

use crate::looks;
use disk_addition::Addition;
use mdc_types::{LegId, NodeId, Part, Refusal, Wish, Word};
use msg_rounds::SenderPhase;
use world_state::{CoreState, check};

fn not_copying(core: &CoreState, n: NodeId) -> Refusal
    requires { n < nodes_of core.now.identity.geometry }
    ensures { result ≡ Refusal.NotPhase Part.Copy (copy_word ((core_of core.now).copy n)) }
{
    Refusal::NotPhase(Part::Copy, core.copies.word(n))
}

/// Needs a node that copies nothing.
pub fn check_no_copy(core: &CoreState, n: NodeId) -> Result<(), Refusal>
    requires { n < nodes_of core.now.identity.geometry }
    ensures { Judges result (copy_is (core_of core.now) n is_none) }
{
    let right = matches!(core.copies.word(n), Word::Nothing);
    check(right, not_copying(core, n))
}

/// Needs the lock alone.
pub fn check_held(core: &CoreState, n: NodeId) -> Result<(), Refusal>
    requires { n < nodes_of core.now.identity.geometry }
    ensures { Judges result (copy_is (core_of core.now) n is_held) }
{
    let right = matches!(core.copies.word(n), Word::Held);
    check(right, not_copying(core, n))
}

/// Needs an open window and an empty buffer.
pub fn check_window(core: &CoreState, n: NodeId) -> Result<(), Refusal>
    requires { n < nodes_of core.now.identity.geometry }
    ensures { Judges result (copy_is (core_of core.now) n is_window) }
{
    let right = matches!(core.copies.word(n), Word::Window);
    check(right, not_copying(core, n))
}

/// Needs a sector in the buffer.
pub fn check_buffer(core: &CoreState, n: NodeId) -> Result<(), Refusal>
    requires { n < nodes_of core.now.identity.geometry }
    ensures { Judges result (copy_is (core_of core.now) n is_buffer) }
{
    let right = matches!(core.copies.word(n), Word::Buffer);
    check(right, not_copying(core, n))
}

/// Needs the lock, with a pass or without.
pub fn check_lock(core: &CoreState, n: NodeId) -> Result<(), Refusal>
    requires { n < nodes_of core.now.identity.geometry }
    ensures { Judges result (copy_is (core_of core.now) n has_lock) }
{
    let right = matches!(
        core.copies.word(n),
        Word::Held | Word::Pass | Word::Window | Word::Buffer
    );
    check(right, not_copying(core, n))
}

/// Refuses a node whose window is open.
pub fn check_closed(core: &CoreState, n: NodeId) -> Result<(), Refusal>
    requires { n < nodes_of core.now.identity.geometry }
    ensures { Judges result (open_window ((core_of core.now).copy n).window) }
{
    match core.copies.window(n) {
        None => Ok(()),
        Some(window) => Err(Refusal::Window(window.lo)),
    }
}

fn offers_to_leave(core: &CoreState, n: NodeId) -> bool
    requires { n < nodes_of core.now.identity.geometry }
    ensures { result ≡ offers is_unclean ((core_of core.now).offer n) }
{
    match &core.offers[n as usize] {
        None => false,
        Some(offer) => matches!(offer.wish, Wish::Unclean),
    }
}

fn has_offered(core: &CoreState, n: NodeId) -> bool
    requires { n < nodes_of core.now.identity.geometry }
    ensures { result ≡ (is_offered ((core_of core.now).sender n)
        || has_published ((core_of core.now).sender n)) }
{
    matches!(
        core.sender(n).sender_phase(),
        SenderPhase::Offered | SenderPhase::Published | SenderPhase::Granted
    )
}

/// Refuses a node that has offered to leave.
pub fn check_stays(core: &CoreState, n: NodeId) -> Result<(), Refusal>
    requires { n < nodes_of core.now.identity.geometry }
    ensures { Judges result (not_offering_to_leave (core_of core.now) n) }
{
    core.check_sender(n, !(has_offered(core, n) && offers_to_leave(core, n)))
}

/// Needs a sender that is idle.
pub fn check_sends_nothing(core: &CoreState, n: NodeId) -> Result<(), Refusal>
    requires { n < nodes_of core.now.identity.geometry }
    ensures { Judges result (sender_is (core_of core.now) n
        (is_sender_idle ((core_of core.now).sender n))) }
{
    let right = matches!(core.sender(n).sender_phase(), SenderPhase::Idle);
    core.check_sender(n, right)
}

fn check_addition(core: &CoreState, n: NodeId, right: bool) -> Result<(), Refusal>
    requires { n < nodes_of core.now.identity.geometry }
    ensures { Judges result (addition_is (core_of core.now) n right) }
{
    let word = core.additions.addition(n).word();
    check(right, Refusal::NotPhase(Part::Addition, word))
}

/// Needs a leg that was added again.
pub fn check_again(core: &CoreState, n: NodeId) -> Result<(), Refusal>
    requires { n < nodes_of core.now.identity.geometry }
    ensures { Judges result (addition_is (core_of core.now) n
        (is_again ((core_of core.now).adding n).addition)) }
{
    let right = matches!(core.additions.addition(n), Addition::Again(_));
    check_addition(core, n, right)
}

/// Needs this leg to have been added again.
pub fn check_again_of(core: &CoreState, n: NodeId, l: LegId) -> Result<(), Refusal>
    requires { n < nodes_of core.now.identity.geometry }
    ensures { Judges result (addition_is (core_of core.now) n
        (is_again_of ((core_of core.now).adding n).addition l)) }
{
    let right = match core.additions.addition(n) {
        Addition::Again(m) => m == l,
        _ => false,
    };
    check_addition(core, n, right)
}

/// Refuses where no page is left to gather.
pub fn check_page_left(core: &CoreState, n: NodeId) -> Result<(), Refusal>
    requires { n < nodes_of core.now.identity.geometry }
    ensures { Judges result (found_or (due_page (core_of core.now) n) Refusal.NothingLeft) }
{
    match core.additions.next(n) {
        None => Err(Refusal::NothingLeft),
        Some(_) => Ok(()),
    }
}

/// Refuses where a page is left to gather, by the leg that it is read from.
pub fn check_gathered(core: &CoreState, n: NodeId) -> Result<(), Refusal>
    requires { n < nodes_of core.now.identity.geometry }
    ensures { Judges result (refused_by Refusal.NotRead (leg_to_gather (core_of core.now) n)) }
{
    if core.additions.next(n).is_none() {
        return Ok(());
    }
    match core.working_leg(n) {
        None => Ok(()),
        Some(l) => Err(Refusal::NotRead(l)),
    }
}

/// Refuses where no sector is left to copy in the window.
pub fn check_sector_left(core: &CoreState, n: NodeId) -> Result<(), Refusal>
    requires { n < nodes_of core.now.identity.geometry }
    ensures { Judges result (found_or (next_sector (core_of core.now) n) Refusal.NothingLeft) }
{
    match core.copies.next(n) {
        None => Err(Refusal::NothingLeft),
        Some(_) => Ok(()),
    }
}

/// Refuses a target that doesn't have the buffer's value.
pub fn check_copied(core: &CoreState, n: NodeId) -> Result<(), Refusal>
    requires { n < nodes_of core.now.identity.geometry }
    ensures { Judges result (refused_by Refusal.NotWritten
        (uncopied_target (core_of core.now) n (buffer_of (core_of core.now) n))) }
{
    match looks::uncopied(core, n) {
        None => Ok(()),
        Some(l) => Err(Refusal::NotWritten(l)),
    }
}

fn not_recovering(core: &CoreState, n: NodeId) -> Refusal
    requires { n < nodes_of core.now.identity.geometry }
    ensures { result ≡ Refusal.NotPhase Part.Recovery
        (recovery_word ((core_of core.now).recovery n)) }
{
    Refusal::NotPhase(Part::Recovery, core.recoveries.word(n))
}

/// Needs a node that recovers nothing.
pub fn check_no_recovery(core: &CoreState, n: NodeId) -> Result<(), Refusal>
    requires { n < nodes_of core.now.identity.geometry }
    ensures { Judges result (recovery_is (core_of core.now) n is_none) }
{
    let right = matches!(core.recoveries.word(n), Word::Nothing);
    check(right, not_recovering(core, n))
}

/// Needs a node that recovers a slot.
pub fn check_recovers(core: &CoreState, n: NodeId) -> Result<(), Refusal>
    requires { n < nodes_of core.now.identity.geometry }
    ensures { Judges result (recovery_is (core_of core.now) n is_open) }
{
    let right = matches!(core.recoveries.word(n), Word::Open);
    check(right, not_recovering(core, n))
}

/// Refuses a slot whose heir's own slot is pending.
pub fn check_heir(core: &CoreState, d: NodeId) -> Result<(), Refusal>
    requires { d < nodes_of core.now.identity.geometry }
    ensures { Judges result (pending_heir (core_of core.now).members
        ((core_of core.now).members.heir d)) }
{
    match core.members.heir(d) {
        None => Ok(()),
        Some(h) => check(!core.members.pending(h), Refusal::HeirPending(h)),
    }
}

/// Refuses where a page of the slot wasn't read from a leg that works.
pub fn check_read(core: &CoreState, n: NodeId) -> Result<(), Refusal>
    requires { n < nodes_of core.now.identity.geometry }
    ensures { Judges result (refused_by Refusal.NotRead
        (leg_unread (core_of core.now) n ((core_of core.now).recovery n))) }
{
    match looks::unread(core, n) {
        None => Ok(()),
        Some(l) => Err(Refusal::NotRead(l)),
    }
}

/// Refuses where a page of the slot wasn't written clean to a target.
pub fn check_cleared(core: &CoreState, n: NodeId) -> Result<(), Refusal>
    requires { n < nodes_of core.now.identity.geometry }
    ensures { Judges result (refused_by Refusal.NotWritten
        (leg_uncleared (core_of core.now) n ((core_of core.now).recovery n))) }
{
    match looks::uncleared(core, n) {
        None => Ok(()),
        Some(l) => Err(Refusal::NotWritten(l)),
    }
}

/// Refuses where a chunk that was found is in the set and has no mark on a target.
pub fn check_marked(core: &CoreState, n: NodeId) -> Result<(), Refusal>
    requires { n < nodes_of core.now.identity.geometry }
    ensures { Judges result (refused_by Refusal.BitMissing
        (leg_unmarked (core_of core.now) n ((core_of core.now).recovery n))) }
{
    match looks::unmarked(core, n) {
        None => Ok(()),
        Some(l) => Err(Refusal::BitMissing(l)),
    }
}

/// Refuses where a chunk that was found is still to be copied.
pub fn check_found_copied(core: &CoreState, n: NodeId) -> Result<(), Refusal>
    requires { n < nodes_of core.now.identity.geometry }
    ensures { Judges result (refused_by Refusal.Needed
        (chunk_needed (core_of core.now) n ((core_of core.now).recovery n))) }
{
    match looks::needed(core, n) {
        None => Ok(()),
        Some(c) => Err(Refusal::Needed(c)),
    }
}

/// Refuses a leg that the node doesn't read from.
pub fn check_works(core: &CoreState, n: NodeId, l: LegId) -> Result<(), Refusal>
    requires node { n < nodes_of core.now.identity.geometry }
    requires leg { l < 8 }
    ensures { Judges result (unless (works ((core_of core.now).view n) l) (Refusal.NotWorking l)) }
{
    check(looks::works(core, n, l), Refusal::NotWorking(l))
}
