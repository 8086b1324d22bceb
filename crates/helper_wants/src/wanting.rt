// The first wish that is due, and whose guards hold.
ghost use Rattle.std.specs.Prelude.{◌≡◌, ◌<◌, [], ◌∷◌, option_map};
ghost use Rattle.dlm_modes.specs.Guards.{first_of};
ghost use Rattle.mdc_types.specs.Geometry.{nodes_of};
ghost use Rattle.cluster_model.specs.State.{sizes};
ghost use Rattle.driver_rules.specs.Wants.{meta_is_due, wish_if, window_of, closing_of, covered_leg, first_faulty, first_spare, of_least, want_guards, may_want, wanted, want};
ghost use Rattle.world_state.specs.Kept.{core_of, Judges};

use crate::copying::{closing_of, window_of, work_of};
use crate::devices::{new_disk_of, rebuild_of, remove_of, spare_of};
use disk_addition::Addition;
use mdc_types::{NodeId, NodeState, Refusal, Wish};
use world_state::CoreState;
use world_wishes::{check_loaded, holds_device_lock, may_wish};

// The node is loaded, or lost a leg that others write, or announced a device and doesn't lock them out.
fn meta_is_due(core: &CoreState, n: NodeId) -> bool
    requires { n < nodes_of (sizes (core_of core.now)) }
    ensures { result ≡ meta_is_due (core_of core.now) n }
{
    matches!(core.state(n), NodeState::Loaded)
        || core.unacked_leg(n).is_some()
        || (matches!(core.additions.addition(n), Addition::Announced(_))
            && !holds_device_lock(core, n))
}

fn meta_of(core: &CoreState, n: NodeId) -> Option<Wish>
    requires { n < nodes_of (sizes (core_of core.now)) }
    ensures { result ≡ wish_if (meta_is_due (core_of core.now) n) Wish.Meta }
{
    meta_is_due(core, n).then_some(Wish::Meta)
}

// The guards of the wish's offer, but that of the sender's phase.
fn check_want(core: &CoreState, n: NodeId, wish: Wish) -> Result<(), Refusal>
    ensures { Judges result (first_of (want_guards (core_of core.now) n wish)) }
{
    core.check_node(n)?;
    core.check_unfenced(n)?;
    core.check_live(n)?;
    check_loaded(core, n, &wish)?;
    may_wish(core, n, wish)
}

fn may_want(core: &CoreState, n: NodeId, wish: Wish) -> bool
    ensures { result ≡ may_want (core_of core.now) n wish }
{
    check_want(core, n, wish).is_ok()
}

// The wish that is due, where its guards hold.
fn wanted(core: &CoreState, n: NodeId, wish: Option<Wish>) -> Option<Wish>
    ensures { result ≡ wanted (core_of core.now) n wish }
{
    wish.filter(|w| may_want(core, n, *w))
}

// What the least member wants to tell of faulty legs and of spares.
fn device_wish(core: &CoreState, n: NodeId) -> Option<Wish>
    requires { n < nodes_of (sizes (core_of core.now)) }
    ensures { result ≡ first_of (
        wanted (core_of core.now) n (of_least (core_of core.now) n Wish.Remove
        (first_faulty (core_of core.now) n))
        ∷ wanted (core_of core.now) n (of_least (core_of core.now) n Wish.NewDisk
        (first_spare (core_of core.now) n))
        ∷ []) }
{
    wanted(core, n, remove_of(core, n)).or_else(|| wanted(core, n, new_disk_of(core, n)))
}

// What it wants to tell of its copying, and then of devices.
fn copying_wish(core: &CoreState, n: NodeId) -> Option<Wish>
    requires { n < nodes_of (sizes (core_of core.now)) }
    ensures { result ≡ first_of (
        wanted (core_of core.now) n (window_of (core_of core.now) n)
        ∷ wanted (core_of core.now) n (closing_of (core_of core.now) n)
        ∷ wanted (core_of core.now) n (option_map Wish.Work (covered_leg (core_of core.now) n))
        ∷ wanted (core_of core.now) n (of_least (core_of core.now) n Wish.Remove
        (first_faulty (core_of core.now) n))
        ∷ wanted (core_of core.now) n (of_least (core_of core.now) n Wish.NewDisk
        (first_spare (core_of core.now) n))
        ∷ []) }
{
    wanted(core, n, window_of(core, n))
        .or_else(|| wanted(core, n, closing_of(core, n)))
        .or_else(|| wanted(core, n, work_of(core, n)))
        .or_else(|| device_wish(core, n))
}

/// The first wish that is due and that nothing but the phase of the node's sender stands against: of legs
/// that it lost, of a device on its way, of its copying, of faulty legs and of spares.
pub fn want(core: &CoreState, n: NodeId) -> Option<Wish>
    requires { n < nodes_of (sizes (core_of core.now)) }
    ensures { result ≡ want (core_of core.now) n }
{
    let addition = core.additions.addition(n);
    wanted(core, n, meta_of(core, n))
        .or_else(|| wanted(core, n, rebuild_of(addition, holds_device_lock(core, n))))
        .or_else(|| wanted(core, n, spare_of(addition)))
        .or_else(|| copying_wish(core, n))
}
