ghost use Rattle.cluster_model.specs.Table.{refusal};
ghost use Rattle.world_state.specs.Kept.{core_of, Judges};

use crate::checks;
use mdc_types::{Event, LegId, NodeId, PageNo, Refusal};
use world_state::{CoreState, check};

/// Whether the node may ask for EX on `resync`.
#[tactic(auto, using(crate::proofs::Guarding::first_of_some, crate::proofs::Guarding::first_of_none))]
pub fn may_ask_resync(core: &CoreState, n: NodeId) -> Result<(), Refusal>
    ensures { Judges result (refusal (core_of core.now) (Event.AskResync n)) }
{
    core.check_node(n)?;
    core.check_unfenced(n)?;
    core.check_live(n)?;
    core.check_up(n)?;
    checks::check_stays(core, n)?;
    checks::check_no_copy(core, n)
}

/// Whether the node may read the page that is due of all slots.
#[tactic(auto, using(crate::proofs::Guarding::first_of_some, crate::proofs::Guarding::first_of_none))]
pub fn may_gather(core: &CoreState, n: NodeId) -> Result<(), Refusal>
    ensures { Judges result (refusal (core_of core.now) (Event.Gather n)) }
{
    core.check_node(n)?;
    core.check_unfenced(n)?;
    core.check_live(n)?;
    core.check_up(n)?;
    checks::check_held(core, n)?;
    checks::check_again(core, n)?;
    core.check_acked(n)?;
    checks::check_page_left(core, n)
}

/// Whether the node may begin a pass over the chunks that it needs.
#[tactic(auto, using(crate::proofs::Guarding::first_of_some, crate::proofs::Guarding::first_of_none))]
pub fn may_pass_own(core: &CoreState, n: NodeId) -> Result<(), Refusal>
    ensures { Judges result (refusal (core_of core.now) (Event.PassOwn n)) }
{
    core.check_node(n)?;
    core.check_unfenced(n)?;
    core.check_live(n)?;
    core.check_up(n)?;
    checks::check_held(core, n)?;
    core.check_acked(n)
}

/// Whether the node may begin a pass over all chunks.
#[tactic(auto, using(crate::proofs::Guarding::first_of_some, crate::proofs::Guarding::first_of_none))]
pub fn may_pass_full(core: &CoreState, n: NodeId) -> Result<(), Refusal>
    ensures { Judges result (refusal (core_of core.now) (Event.PassFull n)) }
{
    core.check_node(n)?;
    core.check_unfenced(n)?;
    core.check_live(n)?;
    core.check_up(n)?;
    checks::check_held(core, n)?;
    core.check_acked(n)
}

/// Whether the node may begin a pass for a leg that was added again.
#[tactic(auto, using(crate::proofs::Guarding::first_of_some, crate::proofs::Guarding::first_of_none))]
pub fn may_pass_again(core: &CoreState, n: NodeId, l: LegId) -> Result<(), Refusal>
    ensures { Judges result (refusal (core_of core.now) (Event.PassAgain n l)) }
{
    core.check_node(n)?;
    core.check_unfenced(n)?;
    core.check_live(n)?;
    core.check_leg(l)?;
    core.check_up(n)?;
    checks::check_held(core, n)?;
    checks::check_again_of(core, n, l)?;
    core.check_acked(n)?;
    checks::check_gathered(core, n)
}

/// Whether the node may read the next sector into the buffer.
#[tactic(auto, using(crate::proofs::Guarding::first_of_some, crate::proofs::Guarding::first_of_none))]
pub fn may_copy_in(core: &CoreState, n: NodeId) -> Result<(), Refusal>
    ensures { Judges result (refusal (core_of core.now) (Event.CopyIn n)) }
{
    core.check_node(n)?;
    core.check_unfenced(n)?;
    core.check_live(n)?;
    core.check_up(n)?;
    checks::check_window(core, n)?;
    core.check_acked(n)?;
    checks::check_sector_left(core, n)
}

/// Whether the node may write the buffer to a leg.
#[tactic(auto, using(crate::proofs::Guarding::first_of_some, crate::proofs::Guarding::first_of_none))]
pub fn may_copy_out(core: &CoreState, n: NodeId, l: LegId) -> Result<(), Refusal>
    ensures { Judges result (refusal (core_of core.now) (Event.CopyOut n l)) }
{
    core.check_node(n)?;
    core.check_unfenced(n)?;
    core.check_live(n)?;
    core.check_leg(l)?;
    core.check_up(n)?;
    checks::check_buffer(core, n)?;
    core.check_target(n, l)?;
    core.check_acked(n)
}

/// Whether the node may settle the buffer's sector.
#[tactic(auto, using(crate::proofs::Guarding::first_of_some, crate::proofs::Guarding::first_of_none))]
pub fn may_settle(core: &CoreState, n: NodeId) -> Result<(), Refusal>
    ensures { Judges result (refusal (core_of core.now) (Event.Settle n)) }
{
    core.check_node(n)?;
    core.check_unfenced(n)?;
    core.check_live(n)?;
    core.check_up(n)?;
    checks::check_buffer(core, n)?;
    core.check_acked(n)?;
    checks::check_copied(core, n)
}

/// Whether the node may end its pass.
#[tactic(auto, using(crate::proofs::Guarding::first_of_some, crate::proofs::Guarding::first_of_none))]
pub fn may_end_pass(core: &CoreState, n: NodeId) -> Result<(), Refusal>
    ensures { Judges result (refusal (core_of core.now) (Event.EndPass n)) }
{
    core.check_node(n)?;
    core.check_unfenced(n)?;
    core.check_live(n)?;
    core.check_up(n)?;
    checks::check_sends_nothing(core, n)?;
    checks::check_lock(core, n)?;
    checks::check_no_recovery(core, n)?;
    checks::check_closed(core, n)
}

/// Whether the node may begin to recover slot `d`.
#[tactic(auto, using(crate::proofs::Guarding::first_of_some, crate::proofs::Guarding::first_of_none))]
pub fn may_recover(core: &CoreState, n: NodeId, d: NodeId) -> Result<(), Refusal>
    ensures { Judges result (refusal (core_of core.now) (Event.Recover n d)) }
{
    core.check_node(n)?;
    core.check_unfenced(n)?;
    core.check_live(n)?;
    core.check_up(n)?;
    checks::check_held(core, n)?;
    checks::check_no_recovery(core, n)?;
    core.check_node(d)?;
    check(core.members.pending(d), Refusal::NotPending(d))?;
    checks::check_heir(core, d)
}

/// Whether the node may read a page of the slot that it recovers.
#[tactic(auto, using(crate::proofs::Guarding::first_of_some, crate::proofs::Guarding::first_of_none))]
pub fn may_slot_in(core: &CoreState, n: NodeId, p: PageNo, l: LegId) -> Result<(), Refusal>
    ensures { Judges result (refusal (core_of core.now) (Event.SlotIn n p l)) }
{
    core.check_node(n)?;
    core.check_unfenced(n)?;
    core.check_live(n)?;
    core.check_leg(l)?;
    core.check_up(n)?;
    checks::check_recovers(core, n)?;
    core.check_page(p)?;
    checks::check_works(core, n, l)
}

/// Whether the node may write a page of the slot clean.
#[tactic(auto, using(crate::proofs::Guarding::first_of_some, crate::proofs::Guarding::first_of_none))]
pub fn may_slot_out(core: &CoreState, n: NodeId, p: PageNo, l: LegId) -> Result<(), Refusal>
    ensures { Judges result (refusal (core_of core.now) (Event.SlotOut n p l)) }
{
    core.check_node(n)?;
    core.check_unfenced(n)?;
    core.check_live(n)?;
    core.check_leg(l)?;
    core.check_up(n)?;
    checks::check_recovers(core, n)?;
    core.check_page(p)?;
    core.check_target(n, l)?;
    core.check_acked(n)?;
    checks::check_read(core, n)?;
    checks::check_marked(core, n)
}

/// Whether the node may end its recovery.
#[tactic(auto, using(crate::proofs::Guarding::first_of_some, crate::proofs::Guarding::first_of_none))]
pub fn may_recovered(core: &CoreState, n: NodeId) -> Result<(), Refusal>
    ensures { Judges result (refusal (core_of core.now) (Event.Recovered n)) }
{
    core.check_node(n)?;
    core.check_unfenced(n)?;
    core.check_live(n)?;
    core.check_up(n)?;
    checks::check_recovers(core, n)?;
    core.check_acked(n)?;
    checks::check_read(core, n)?;
    checks::check_cleared(core, n)?;
    checks::check_found_copied(core, n)
}
