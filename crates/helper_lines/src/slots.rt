// The pages of the slot that the node recovers.
ghost use Rattle.std.specs.Prelude.{◌≡◌, ◌<◌};
ghost use Rattle.mdc_types.specs.Bits.{has_bit};
ghost use Rattle.mdc_types.specs.Geometry.{nodes_of};
ghost use Rattle.node_copies.specs.Recoveries.{page_unread, page_uncleared};
ghost use Rattle.cluster_model.specs.State.{sizes};
ghost use Rattle.driver_rules.specs.Lines.{recovering, unread_in, uncleared_in, allowed_at, of_page};
ghost use Rattle.world_state.specs.Kept.{core_of};
ghost use Rattle.world_state.specs.Ready.{Ready};

use helper_rounds::allowed;
use mdc_types::{Event, LegId, NodeId, PageNo};
use world_repair::looks::{targets, working};
use world_state::CoreState;

fn unread_on(core: &CoreState, n: NodeId, legs: u8) -> Option<(PageNo, LegId)>
    requires { n < 16 }
    ensures { result ≡ page_unread (sizes (core_of core.now)) ((core_of core.now).recovery n)
        (has_bit legs) }
{
    core.recoveries.unread(n, legs)
}

// The first page that wasn't read from a leg that works, and the least such leg.
fn unread(core: &CoreState, n: NodeId) -> Option<(PageNo, LegId)>
    requires { n < nodes_of (sizes (core_of core.now)) }
    ensures { result ≡ unread_in (core_of core.now) n ((core_of core.now).recovery n) }
{
    unread_on(core, n, working(core, n))
}

fn uncleared_on(core: &CoreState, n: NodeId, legs: u8) -> Option<(PageNo, LegId)>
    requires { n < 16 }
    ensures { result ≡ page_uncleared (sizes (core_of core.now)) ((core_of core.now).recovery n)
        (has_bit legs) }
{
    core.recoveries.uncleared(n, legs)
}

// The first page that wasn't written clean to a target, and the least such leg.
fn uncleared(core: &CoreState, n: NodeId) -> Option<(PageNo, LegId)>
    requires { n < nodes_of (sizes (core_of core.now)) }
    ensures { result ≡ uncleared_in (core_of core.now) n ((core_of core.now).recovery n) }
{
    uncleared_on(core, n, targets(core, n))
}

fn slot_in(core: &CoreState, n: NodeId) -> Option<Event>
    requires ready { Ready (core_of core.now) }
    requires node { n < nodes_of (sizes (core_of core.now)) }
    ensures { result ≡ allowed_at (core_of core.now) (of_page (Event.SlotIn n))
        (unread_in (core_of core.now) n ((core_of core.now).recovery n)) }
{
    let (p, l) = unread(core, n)?;
    allowed(core, Event::SlotIn(n, p, l))
}

fn slot_out(core: &CoreState, n: NodeId) -> Option<Event>
    requires ready { Ready (core_of core.now) }
    requires node { n < nodes_of (sizes (core_of core.now)) }
    ensures { result ≡ allowed_at (core_of core.now) (of_page (Event.SlotOut n))
        (uncleared_in (core_of core.now) n ((core_of core.now).recovery n)) }
{
    let (p, l) = uncleared(core, n)?;
    allowed(core, Event::SlotOut(n, p, l))
}

/// A page of the slot is read, or written clean, or the recovery ends.
pub fn recovering(core: &CoreState, n: NodeId) -> Option<Event>
    requires ready { Ready (core_of core.now) }
    requires node { n < nodes_of (sizes (core_of core.now)) }
    ensures { result ≡ recovering (core_of core.now) n }
{
    slot_in(core, n)
        .or_else(|| slot_out(core, n))
        .or_else(|| allowed(core, Event::Recovered(n)))
}
