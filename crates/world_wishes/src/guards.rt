// What a wish may ask of the node that offers it.
ghost use Rattle.std.specs.Prelude.{◌≡◌, ◌<◌, ◌==◌, ◌&&◌, ◌^◌, not};
ghost use Rattle.dlm_modes.specs.Guards.{unless};
ghost use Rattle.mdc_types.specs.Geometry.{nodes_of};
ghost use Rattle.mdc_types.specs.Roles.{is_faulty};
ghost use Rattle.disk_addition.specs.Wishes.{HasLeg};
ghost use Rattle.node_member.specs.Members.{first_pending};
ghost use Rattle.cluster_model.specs.State.{sizes};
ghost use Rattle.cluster_model.specs.Guards.{refused_by};
ghost use Rattle.leg_failure.specs.Views.{view_of};
ghost use Rattle.cluster_model.specs.Phases.{copy_is, has_pass, is_none as is_none_word};
ghost use Rattle.cluster_model.specs.Wishes.{loaded_offers, no_events, meta_needed, holds_device_lock, unsuited, path_cut, other_faulty, has_copied, is_window, may_grow};
ghost use Rattle.world_state.specs.Kept.{core_of, Judges};

use disk_addition::Addition;
use dlm_modes::Mode;
use leg_failure::View;
use mdc_types::{Geometry, LegId, NodeId, NodeState, Part, Range, Refusal, Res, Role, Wish, Word};
use world_state::{CoreState, check};

/// A loaded node may only offer `meta`.
pub fn check_loaded(core: &CoreState, n: NodeId, wish: &Wish) -> Result<(), Refusal>
    requires { n < nodes_of core.now.identity.geometry }
    ensures { Judges result (loaded_offers ((core_of core.now).state n) wish.now) }
{
    match (core.state(n), wish) {
        (NodeState::Loaded, Wish::Meta) => Ok(()),
        (NodeState::Loaded, _) => Err(Refusal::NotPhase(Part::State, Word::Loaded)),
        _ => Ok(()),
    }
}

/// Refuses where no events number is left.
pub fn check_events(core: &CoreState) -> Result<(), Refusal>
    ensures { Judges result (no_events (core_of core.now)) }
{
    let drawn = core.members.drawn();
    check(drawn < 1 << 63, Refusal::NoEvents(drawn))
}

fn meta_needed(core: &CoreState, n: NodeId) -> bool
    requires { n < nodes_of core.now.identity.geometry }
    ensures { result ≡ meta_needed (core_of core.now) n }
{
    !matches!(core.state(n), NodeState::Up)
        || core.unacked_leg(n).is_some()
        || matches!(core.additions.addition(n), Addition::Announced(_))
}

/// Refuses an up node that has nothing to tell.
pub fn check_needed(core: &CoreState, n: NodeId) -> Result<(), Refusal>
    requires { n < nodes_of core.now.identity.geometry }
    ensures { Judges result (unless (meta_needed (core_of core.now) n) Refusal.NotNeeded) }
{
    check(meta_needed(core, n), Refusal::NotNeeded)
}

/// Whether the node holds EX on `no-new-dev`.
pub fn holds_device_lock(core: &CoreState, n: NodeId) -> bool
    requires { n < nodes_of core.now.identity.geometry }
    ensures { result ≡ holds_device_lock (core_of core.now) n }
{
    matches!(core.space.holder(Res::NoNewDev.number(), n), Some(Mode::EX))
}

/// What the wish asks of the addition and of its leg's role.
pub fn check_suited(core: &CoreState, n: NodeId, wish: &Wish) -> Result<(), Refusal>
    requires node { n < nodes_of core.now.identity.geometry }
    requires leg { HasLeg wish.now }
    ensures { Judges result (unsuited (core_of core.now) n wish.now) }
{
    let addition = core.additions.addition(n);
    let roles = *core.view(n).roles();
    addition.may(wish, &roles, holds_device_lock(core, n))
}

/// Refuses a leg to which the node's path is cut.
pub fn check_path(core: &CoreState, n: NodeId, l: LegId) -> Result<(), Refusal>
    requires node { n < nodes_of core.now.identity.geometry }
    requires leg { l < 8 }
    ensures { Judges result (path_cut (core_of core.now) n l) }
{
    check(core.paths.open(n, l), Refusal::PathCut(l))
}

/// Refuses while a slot is pending.
pub fn check_recovered(core: &CoreState) -> Result<(), Refusal>
    ensures { Judges result (refused_by Refusal.Pending (first_pending
        (core_of core.now).members)) }
{
    match core.members.first_pending() {
        None => Ok(()),
        Some(d) => Err(Refusal::Pending(d)),
    }
}

fn is_other_faulty(view: &View, l: LegId, j: LegId) -> bool
    requires { j < 8 }
    ensures { result ≡ (is_faulty ((view_of view.now).role j) && not (j == l)) }
{
    view.roles().of(j) == Role::Faulty && j != l
}

fn first_other_faulty(view: &View, l: LegId) -> Option<LegId>
    ensures { result ≡ other_faulty (view_of view.now) l }
{
    for j in 0..8 {
        if is_other_faulty(view, l, j) {
            return Some(j);
        }
    }
    None
}

// The first other leg that is faulty.
fn other_faulty(core: &CoreState, n: NodeId, l: LegId) -> Option<LegId>
    requires { n < nodes_of core.now.identity.geometry }
    ensures { result ≡ other_faulty ((core_of core.now).view n) l }
{
    first_other_faulty(core.view(n), l)
}

/// Refuses while another leg is faulty.
pub fn check_others(core: &CoreState, n: NodeId, l: LegId) -> Result<(), Refusal>
    requires { n < nodes_of core.now.identity.geometry }
    ensures { Judges result (refused_by Refusal.Degraded (other_faulty
        ((core_of core.now).view n) l)) }
{
    match other_faulty(core, n, l) {
        None => Ok(()),
        Some(j) => Err(Refusal::Degraded(j)),
    }
}

/// Refuses a leg that the node's pass doesn't cover, or has something left to copy to.
pub fn check_copied(core: &CoreState, n: NodeId, l: LegId) -> Result<(), Refusal>
    requires node { n < nodes_of core.now.identity.geometry }
    requires leg { l < 8 }
    ensures { Judges result (unless (has_copied (sizes (core_of core.now))
        ((core_of core.now).copy n).pass l) (Refusal.NotCopied l)) }
{
    check(core.copies.has_copied(n, l), Refusal::NotCopied(l))
}

/// Needs a pass.
pub fn check_pass(core: &CoreState, n: NodeId) -> Result<(), Refusal>
    requires { n < nodes_of core.now.identity.geometry }
    ensures { Judges result (copy_is (core_of core.now) n has_pass) }
{
    let word = core.copies.word(n);
    let has_pass = matches!(word, Word::Pass | Word::Window | Word::Buffer);
    check(has_pass, Refusal::NotPhase(Part::Copy, word))
}

/// Needs a node that copies nothing.
pub fn check_copies_nothing(core: &CoreState, n: NodeId) -> Result<(), Refusal>
    requires { n < nodes_of core.now.identity.geometry }
    ensures { Judges result (copy_is (core_of core.now) n is_none_word) }
{
    let word = core.copies.word(n);
    check(
        matches!(word, Word::Nothing),
        Refusal::NotPhase(Part::Copy, word),
    )
}

// The empty range, or one within the room whose ends are ends of chunks.
fn is_window(g: &Geometry, r: Range) -> bool
    ensures { result ≡ is_window g.now r }
{
    let (chunk, room) = (g.chunk(), g.room());
    (r.lo == 0 && r.hi == 0)
        || (r.lo < r.hi && r.hi <= room && r.lo % chunk == 0 && (r.hi % chunk == 0 || r.hi == room))
}

/// Refuses a range that can't be a window.
pub fn check_window(core: &CoreState, r: Range) -> Result<(), Refusal>
    ensures { Judges result (unless (is_window (sizes (core_of core.now)) r)
        (Refusal.NoSector r.lo)) }
{
    check(
        is_window(&core.identity.geometry, r),
        Refusal::NoSector(r.lo),
    )
}

/// Refuses a size that isn't over the node's own, or is over the room.
pub fn check_size(core: &CoreState, n: NodeId, size: u32) -> Result<(), Refusal>
    requires { n < nodes_of core.now.identity.geometry }
    ensures { Judges result (unless (may_grow (core_of core.now) n size) (Refusal.NoSize size)) }
{
    let may_grow = core.view(n).sure_size() < size && size <= core.identity.geometry.room();
    check(may_grow, Refusal::NoSize(size))
}
