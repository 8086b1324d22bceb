ghost use Rattle.std.specs.Prelude.{◌≡◌, ◌<◌, nat_le, map, Some, None};
ghost use Rattle.std.specs.Option.{option_map};
ghost use Rattle.md_superblock.specs.Arrays.{said, says_in};
ghost use Rattle.dlm_modes.specs.First.{first_such};
ghost use Rattle.dlm_modes.specs.Guards.{unless};
ghost use Rattle.mdc_types.specs.Geometry.{nodes_of};
ghost use Rattle.leg_failure.specs.Views.{view_of};
ghost use Rattle.msg_rounds.specs.Refusals.{is_token_held};
ghost use Rattle.cluster_model.specs.After.{after, tried_as};
ghost use Rattle.cluster_model.specs.Guards.{refused_by};
ghost use Rattle.cluster_model.specs.Joining.{is_untried, greatest, loaded, newest, missing_leg};
ghost use Rattle.cluster_model.specs.Joining.{view_from};
ghost use Rattle.cluster_model.specs.Outcomes.{outcome_of, load_outcome};
ghost use Rattle.cluster_model.specs.State.{sizes};
ghost use Rattle.cluster_model.specs.Table.{refusal};
ghost use Rattle.world_state.specs.Kept.{Judges, core_of};
ghost use Rattle.world_state.specs.Ready.{Ready};
ghost use Rattle.world_state.specs.Told.{Fits, Carries, seen_of};

use crate::{changes, newest, ranges};
use leg_failure::View;
use leg_store::LegDev;
use md_superblock::ArrayState;
use mdc_types::{Event, LegId, NodeId, NodeState, Outcome, Refusal, Role, Roles, Sector};
use msg_rounds::SenderPhase;
use world_state::{Attempt, CoreState, check, receive};

/// The guards of `join n`.
pub fn may_join(core: &CoreState, n: NodeId) -> Result<(), Refusal>
    ensures { Judges result (refusal (core_of core.now) (Event.Join n)) }
{
    core.check_node(n)?;
    core.check_unfenced(n)?;
    check(!core.members.live(n), Refusal::SlotLive(n))?;
    check(!core.members.pending(n), Refusal::SlotPending(n))
}

/// The node begins to come in.
pub fn join(core: &mut CoreState, n: NodeId) -> Outcome
    requires accepted { refusal (core_of core.old) (Event.Join n) ≡ None }
    requires ready { Ready (core_of core.old) }
    ensures outcome { result ≡ outcome_of (core_of core.old) (Event.Join n) }
    ensures after { core_of core.new ≡ after (core_of core.old) (Event.Join n) result }
{
    changes::join_members(core, n);
    changes::take_slot(core, n);
    changes::ask_token(core, n);
    changes::reset_heads(core, n);
    core.set_state(n, NodeState::Joining);
    Outcome::Done
}

// The node has tried all legs.
fn check_tried(core: &CoreState, n: NodeId) -> Result<(), Refusal>
    requires { n < nodes_of core.now.identity.geometry }
    ensures { Judges result (refused_by Refusal.NotLoaded (first_such
        (λ l. is_untried ((core_of core.now).tried n l)) 0 (core_of core.now).array.sizes.legs)) }
{
    let legs = core.identity.geometry.legs();
    match newest::first_untried(&core.tried[n as usize], legs) {
        Some(l) => Err(Refusal::NotLoaded(l)),
        None => Ok(()),
    }
}

// The greatest events number that it read.
fn greatest(core: &CoreState, n: NodeId) -> u64
    requires { n < 16 }
    ensures { result ≡ greatest ((core_of core.now).tried n) }
{
    newest::greatest(&core.tried[n as usize])
}

// What it read is no older than the last completed round.
fn check_fresh(core: &CoreState, read: u64) -> Result<(), Refusal>
    ensures { Judges result (unless (nat_le (core_of core.now).members.completed read)
        (Refusal.Stale read (core_of core.now).members.completed)) }
{
    let completed = core.members.completed();
    check(completed <= read, Refusal::Stale { read, completed })
}

// The newest superblock that it read.
fn newest_state(core: &CoreState, n: NodeId) -> Option<ArrayState>
    requires { n < 16 }
    ensures { option_map said result ≡ newest ((core_of core.now).tried n) }
{
    newest::newest(&core.tried[n as usize])
}

fn missing_leg(core: &CoreState, n: NodeId, newest: &Option<ArrayState>) -> Option<LegId>
    requires { n < 16 }
    ensures { result ≡ missing_leg ((core_of core.now).tried n) (option_map said newest.now) }
{
    newest::missing_leg(&core.tried[n as usize], newest)
}

// It read a leg that works by the newest superblock.
fn check_working(core: &CoreState, n: NodeId) -> Result<(), Refusal>
    requires { n < nodes_of core.now.identity.geometry }
    ensures { Judges result (refused_by Refusal.Missing
        (missing_leg ((core_of core.now).tried n) (newest ((core_of core.now).tried n)))) }
{
    match missing_leg(core, n, &newest_state(core, n)) {
        Some(l) => Err(Refusal::Missing(l)),
        None => Ok(()),
    }
}

fn has_token(core: &CoreState, n: NodeId) -> bool
    requires { n < nodes_of core.now.identity.geometry }
    ensures { result ≡ is_token_held ((core_of core.now).sender n) }
{
    matches!(core.sender(n).sender_phase(), SenderPhase::TokenHeld)
}

/// The guards of `up n`.
pub fn may_up(core: &CoreState, n: NodeId) -> Result<(), Refusal>
    ensures { Judges result (refusal (core_of core.now) (Event.Up n)) }
{
    core.check_node(n)?;
    core.check_unfenced(n)?;
    core.check_live(n)?;
    core.check_joining(n)?;
    core.check_sender(n, has_token(core, n))?;
    check_tried(core, n)?;
    check_fresh(core, greatest(core, n))?;
    check_working(core, n)
}

fn view_from(core: &CoreState, n: NodeId, state: &ArrayState) -> View
    requires { n < 16 }
    ensures { view_of result ≡ view_from ((core_of core.now).tried n) (Some (said state.now)) }
{
    newest::view_from(&core.tried[n as usize], state)
}

// The view by the newest superblock that the node read.
fn newest_view(core: &CoreState, n: NodeId) -> View
    requires { n < 16 }
    ensures { view_of result
        ≡ view_from ((core_of core.now).tried n) (newest ((core_of core.now).tried n)) }
{
    match newest_state(core, n) {
        Some(state) => view_from(core, n, &state),
        None => View::new(
            Roles {
                legs: [Role::Spare; 8],
            },
            0,
        ),
    }
}

/// The node takes the newest superblock. It is loaded, and the members' ranges are suspended.
pub fn up(core: &mut CoreState, n: NodeId) -> Outcome
    requires accepted { refusal (core_of core.old) (Event.Up n) ≡ None }
    requires ready { Ready (core_of core.old) }
    ensures outcome { result ≡ outcome_of (core_of core.old) (Event.Up n) }
    ensures after { core_of core.new ≡ after (core_of core.old) (Event.Up n) result }
{
    let view = newest_view(core, n);
    let ranges = ranges::members_ranges(core);
    changes::enter_locks(core, n);
    core.set_view(n, view);
    core.set_suspended(n, ranges);
    core.forget_tries(n);
    core.set_state(n, NodeState::Loaded);
    Outcome::Done
}

/// The guards of `load n l`.
pub fn may_load(core: &CoreState, n: NodeId, l: LegId) -> Result<(), Refusal>
    ensures { Judges result (refusal (core_of core.now) (Event.Load n l)) }
{
    core.check_node(n)?;
    core.check_unfenced(n)?;
    core.check_live(n)?;
    core.check_leg(l)?;
    core.check_joining(n)?;
    core.check_sender(n, has_token(core, n))
}

// The sector that was read from leg `l`, as the superblock that it may be.
fn note_super(core: &mut CoreState, n: NodeId, l: LegId, v: &Sector) -> Outcome
    requires node { n < 16 }
    requires leg { l < 8 }
    ensures outcome { result
        ≡ load_outcome l v.now (says_in (core_of core.old).array l v.now.bytes) }
    ensures core { core_of core.new
        ≡ loaded (core_of core.old) n l
        (tried_as (says_in (core_of core.old).array l v.now.bytes)) }
{
    match core.identity.read(l, v) {
        Some(state) => {
            changes::set_try(core, n, l, Attempt::Loaded(state));
            Outcome::Super {
                events: state.events,
                block: *v,
            }
        }
        None => {
            changes::set_try(core, n, l, Attempt::Unread);
            Outcome::Unread(l)
        }
    }
}

/// The node reads the superblock of the leg.
pub fn load<L: LegDev>(core: &mut CoreState, legs: &mut Vec<L>, n: NodeId, l: LegId) -> Outcome
    requires accepted { refusal (core_of core.old) (Event.Load n l) ≡ None }
    requires ready { Ready (core_of core.old) }
    requires fits { Fits (sizes (core_of core.old)) (map L.size legs.old.items) }
    ensures carried { Carries (Event.Load n l) result
        core.old (seen_of L.contents L.size L.faults L.plan legs.old.items)
        core.new (seen_of L.contents L.size L.faults L.plan legs.new.items) }
{
    match receive(core, legs, n, l, 8) {
        Ok(v) => note_super(core, n, l, &v),
        Err(_) => {
            changes::set_try(core, n, l, Attempt::Unread);
            Outcome::Unread(l)
        }
    }
}
