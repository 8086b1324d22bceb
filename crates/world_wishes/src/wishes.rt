// The guards of each wish, in the order of its line.
ghost use Rattle.std.specs.Prelude.{◌<◌};
ghost use Rattle.dlm_modes.specs.Guards.{first_of};
ghost use Rattle.mdc_types.specs.Geometry.{nodes_of};
ghost use Rattle.cluster_model.specs.Wishes.{wish_guards};
ghost use Rattle.world_state.specs.Kept.{core_of, Judges};

use crate::guards;
use mdc_types::{LegId, NodeId, Range, Refusal, Wish};
use world_rounds::{check_drained, check_drained_in, check_reads_nothing};
use world_state::CoreState;

fn may_meta(core: &CoreState, n: NodeId) -> Result<(), Refusal>
    requires { n < nodes_of core.now.identity.geometry }
    ensures { Judges result (first_of (wish_guards (core_of core.now) n Wish.Meta)) }
{
    guards::check_needed(core, n)?;
    guards::check_events(core)
}

fn may_spare(core: &CoreState, n: NodeId, l: LegId) -> Result<(), Refusal>
    requires { n < nodes_of core.now.identity.geometry }
    ensures { Judges result (first_of (wish_guards (core_of core.now) n (Wish.Spare l))) }
{
    core.check_acked(n)?;
    core.check_leg(l)?;
    guards::check_suited(core, n, &Wish::Spare(l))?;
    guards::check_events(core)
}

fn may_rebuild(core: &CoreState, n: NodeId, l: LegId) -> Result<(), Refusal>
    requires { n < nodes_of core.now.identity.geometry }
    ensures { Judges result (first_of (wish_guards (core_of core.now) n (Wish.Rebuild l))) }
{
    core.check_acked(n)?;
    core.check_leg(l)?;
    guards::check_suited(core, n, &Wish::Rebuild(l))?;
    guards::check_events(core)
}

fn may_work(core: &CoreState, n: NodeId, l: LegId) -> Result<(), Refusal>
    requires { n < nodes_of core.now.identity.geometry }
    ensures { Judges result (first_of (wish_guards (core_of core.now) n (Wish.Work l))) }
{
    core.check_acked(n)?;
    core.check_leg(l)?;
    guards::check_recovered(core)?;
    guards::check_suited(core, n, &Wish::Work(l))?;
    guards::check_others(core, n, l)?;
    guards::check_copied(core, n, l)?;
    guards::check_events(core)
}

fn may_range(core: &CoreState, n: NodeId, r: Range) -> Result<(), Refusal>
    requires { n < nodes_of core.now.identity.geometry }
    ensures { Judges result (first_of (wish_guards (core_of core.now) n (Wish.Range r))) }
{
    core.check_acked(n)?;
    guards::check_pass(core, n)?;
    guards::check_window(core, r)?;
    check_drained_in(core, n, r)
}

fn may_new_disk(core: &CoreState, n: NodeId, l: LegId) -> Result<(), Refusal>
    requires { n < nodes_of core.now.identity.geometry }
    ensures { Judges result (first_of (wish_guards (core_of core.now) n (Wish.NewDisk l))) }
{
    core.check_acked(n)?;
    core.check_leg(l)?;
    guards::check_suited(core, n, &Wish::NewDisk(l))?;
    guards::check_path(core, n, l)
}

fn may_remove(core: &CoreState, n: NodeId, l: LegId) -> Result<(), Refusal>
    requires { n < nodes_of core.now.identity.geometry }
    ensures { Judges result (first_of (wish_guards (core_of core.now) n (Wish.Remove l))) }
{
    core.check_acked(n)?;
    core.check_leg(l)?;
    guards::check_suited(core, n, &Wish::Remove(l))
}

fn may_readd(core: &CoreState, n: NodeId, l: LegId) -> Result<(), Refusal>
    requires { n < nodes_of core.now.identity.geometry }
    ensures { Judges result (first_of (wish_guards (core_of core.now) n (Wish.ReAdd l))) }
{
    core.check_acked(n)?;
    core.check_leg(l)?;
    guards::check_suited(core, n, &Wish::ReAdd(l))?;
    guards::check_path(core, n, l)
}

fn may_unclean(core: &CoreState, n: NodeId) -> Result<(), Refusal>
    requires { n < nodes_of core.now.identity.geometry }
    ensures { Judges result (first_of (wish_guards (core_of core.now) n Wish.Unclean)) }
{
    guards::check_copies_nothing(core, n)?;
    check_drained(core, n)?;
    check_reads_nothing(core, n)
}

fn may_grow(core: &CoreState, n: NodeId, size: u32) -> Result<(), Refusal>
    requires { n < nodes_of core.now.identity.geometry }
    ensures { Judges result (first_of (wish_guards (core_of core.now) n (Wish.Grow size))) }
{
    core.check_acked(n)?;
    guards::check_size(core, n, size)?;
    guards::check_events(core)
}

/// The guards of the wish.
pub fn may_wish(core: &CoreState, n: NodeId, wish: Wish) -> Result<(), Refusal>
    requires { n < nodes_of core.now.identity.geometry }
    ensures { Judges result (first_of (wish_guards (core_of core.now) n wish)) }
{
    match wish {
        Wish::Meta => may_meta(core, n),
        Wish::Spare(l) => may_spare(core, n, l),
        Wish::Rebuild(l) => may_rebuild(core, n, l),
        Wish::Work(l) => may_work(core, n, l),
        Wish::Range(r) => may_range(core, n, r),
        Wish::NewDisk(l) => may_new_disk(core, n, l),
        Wish::Remove(l) => may_remove(core, n, l),
        Wish::ReAdd(l) => may_readd(core, n, l),
        Wish::Unclean => may_unclean(core, n),
        Wish::Grow(size) => may_grow(core, n, size),
    }
}
