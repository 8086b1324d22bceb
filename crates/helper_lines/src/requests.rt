// The node's requests in flight.
ghost use Rattle.std.specs.Prelude.{◌≡◌, ◌<◌, IsSome};
ghost use Rattle.mdc_types.specs.Geometry.{nodes_of};
ghost use Rattle.leg_failure.specs.Views.{is_target};
ghost use Rattle.mirror_io.specs.Flight.{write_in, write_from};
ghost use Rattle.cluster_model.specs.State.{sizes};
ghost use Rattle.cluster_model.specs.Writes.{unwritten_target};
ghost use Rattle.driver_rules.specs.Lines.{flying, first_undone, first_to_end, first_read, allowed_at, of_page};
ghost use Rattle.world_state.specs.Kept.{core_of};
ghost use Rattle.world_state.specs.Ready.{Ready};

use helper_rounds::allowed;
use mdc_types::{Event, LegId, NodeId, ReadNo, WriteNo};
use world_state::CoreState;

// The first live write whose number is `from` or more.
fn next_write(core: &CoreState, n: NodeId, from: WriteNo) -> Option<WriteNo>
    requires { n < nodes_of (sizes (core_of core.now)) }
    ensures { result ≡ write_from from ((core_of core.now).writes n) }
{
    core.requests.write_from(n, from)
}

// The least target that doesn't have the write.
fn missing(core: &CoreState, n: NodeId, k: WriteNo) -> Option<LegId>
    requires node { n < nodes_of (sizes (core_of core.now)) }
    requires live { IsSome (write_in k ((core_of core.now).writes n)) }
    ensures { result ≡
        unwritten_target (core_of core.now) n (write_in k ((core_of core.now).writes n)) }
{
    core.requests.missing(n, k, core.view(n).targets())
}

// The first live write that a target doesn't have, and the least such target.
fn first_undone(core: &CoreState, n: NodeId) -> Option<(WriteNo, LegId)>
    requires ready { Ready (core_of core.now) }
    requires node { n < nodes_of (sizes (core_of core.now)) }
    ensures { result ≡ first_undone (is_target ((core_of core.now).view n))
        ((core_of core.now).writes n) }
{
    let mut from = 0;
    while let Some(k) = next_write(core, n, from) {
        if let Some(l) = missing(core, n, k) {
            return Some((k, l));
        }
        from = k + 1;
    }
    None
}

// The first of the live writes that may end.
fn first_to_end(core: &CoreState, n: NodeId) -> Option<Event>
    requires ready { Ready (core_of core.now) }
    requires node { n < nodes_of (sizes (core_of core.now)) }
    ensures { result ≡ first_to_end (core_of core.now) n ((core_of core.now).writes n) }
{
    let mut from = 0;
    while let Some(k) = next_write(core, n, from) {
        if let Some(e) = allowed(core, Event::EndWrite(n, k)) {
            return Some(e);
        }
        from = k + 1;
    }
    None
}

// The first live read.
#[tactic(auto, using(crate::proofs::Flights::first_read_is))]
fn first_read(core: &CoreState, n: NodeId) -> Option<ReadNo>
    requires { n < nodes_of (sizes (core_of core.now)) }
    ensures { result ≡ first_read ((core_of core.now).reads n) }
{
    core.requests.read_from(n, 0)
}

fn writing_out(core: &CoreState, n: NodeId) -> Option<Event>
    requires ready { Ready (core_of core.now) }
    requires node { n < nodes_of (sizes (core_of core.now)) }
    ensures { result ≡ allowed_at (core_of core.now) (of_page (Event.Out n))
        (first_undone (is_target ((core_of core.now).view n)) ((core_of core.now).writes n)) }
{
    let (k, l) = first_undone(core, n)?;
    allowed(core, Event::Out(n, k, l))
}

fn reading_in(core: &CoreState, n: NodeId) -> Option<Event>
    requires ready { Ready (core_of core.now) }
    requires node { n < nodes_of (sizes (core_of core.now)) }
    ensures { result ≡ allowed_at (core_of core.now) (Event.In n)
        (first_read ((core_of core.now).reads n)) }
{
    let k = first_read(core, n)?;
    allowed(core, Event::In(n, k))
}

/// A write goes to a target that doesn't have it, or ends, or a read is done.
pub fn flying(core: &CoreState, n: NodeId) -> Option<Event>
    requires ready { Ready (core_of core.now) }
    requires node { n < nodes_of (sizes (core_of core.now)) }
    ensures { result ≡ flying (core_of core.now) n }
{
    writing_out(core, n)
        .or_else(|| first_to_end(core, n))
        .or_else(|| reading_in(core, n))
}
