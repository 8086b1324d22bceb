ghost use Rattle.std.specs.Prelude.{◌≡◌, ◌<◌, ◌≤◌, ℕ, length, nat_lt};
ghost use Rattle.mdc_types.specs.Geometry.{nodes_of};
ghost use Rattle.leg_failure.specs.Views.{works};
ghost use Rattle.mirror_io.specs.Flight.{write_from, read_from};
ghost use Rattle.cluster_model.specs.State.{sizes};
ghost use Rattle.cluster_model.specs.Phases.{is_up};
ghost use Rattle.driver_rules.specs.Helpers.{is_live};
ghost use Rattle.driver_rules.specs.Storms.{live_nodes, working_legs, greatest_of_two, death, leg_to_cut};
ghost use Rattle.world_state.specs.Kept.{core_of};
ghost use Rattle.world_state.specs.Ready.{Ready};

use arrayvec::ArrayVec;
use mdc_types::{Event, LegId, NodeId, NodeState, ReadNo, WriteNo, has_leg};
use world_state::CoreState;

fn is_live(core: &CoreState, n: NodeId) -> bool
    requires { n < nodes_of (sizes (core_of core.now)) }
    ensures { result ≡ is_live (core_of core.now) n }
{
    !matches!(core.state(n), NodeState::Out)
}

/// Whether the node is up.
pub fn is_up(core: &CoreState, n: NodeId) -> bool
    requires { n < nodes_of (sizes (core_of core.now)) }
    ensures { result ≡ is_up ((core_of core.now).state n) }
{
    matches!(core.state(n), NodeState::Up)
}

/// The live nodes, in rising order.
#[tactic(auto, using(crate::proofs::NumberLists::those_below_start, crate::proofs::NumberLists::those_below_more, crate::proofs::NumberLists::those_below_same, crate::proofs::NumberLists::those_below_few))]
pub fn live_nodes(core: &CoreState) -> ArrayVec<NodeId, 16>
    ensures { result.items ≡ live_nodes (core_of core.now) }
{
    let mut nodes: ArrayVec<NodeId, 16> = ArrayVec::new();
    for n in 0..core.identity.geometry.nodes() {
        if is_live(core, n) {
            nodes.push(n);
        }
    }
    nodes
}

fn works(core: &CoreState, n: NodeId, l: LegId) -> bool
    requires node { n < nodes_of (sizes (core_of core.now)) }
    requires leg { l < 8 }
    ensures { result ≡ works ((core_of core.now).view n) l }
{
    has_leg(core.view(n).working(), l)
}

/// The legs that the node reads from, in rising order.
#[tactic(auto, using(crate::proofs::NumberLists::those_below_start, crate::proofs::NumberLists::those_below_more, crate::proofs::NumberLists::those_below_same, crate::proofs::NumberLists::those_below_few))]
fn working_legs(core: &CoreState, n: NodeId) -> ArrayVec<LegId, 8>
    requires { n < nodes_of (sizes (core_of core.now)) }
    ensures { result.items ≡ working_legs (core_of core.now) n }
{
    let mut legs: ArrayVec<LegId, 8> = ArrayVec::new();
    for l in 0..8 {
        if works(core, n, l) {
            legs.push(l);
        }
    }
    legs
}

/// The last number, where there are two or more.
fn greatest_of_two(numbers: &[u8]) -> Option<u8>
    ensures { result ≡ greatest_of_two numbers.now }
{
    if numbers.len() < 2 {
        return None;
    }
    Some(numbers[numbers.len() - 1])
}

/// The death of the greatest live node, where two or more are live.
pub fn death(core: &CoreState) -> Option<Event>
    ensures { result ≡ death (core_of core.now) }
{
    greatest_of_two(live_nodes(core).as_slice()).map(Event::Die)
}

/// The greatest leg that node 0 reads from, where it is up and reads from two or more.
pub fn leg_to_cut(core: &CoreState) -> Option<LegId>
    ensures { result ≡ leg_to_cut (core_of core.now) }
{
    if !is_up(core, 0) {
        return None;
    }
    greatest_of_two(working_legs(core, 0).as_slice())
}

fn write_from(core: &CoreState, n: NodeId, k: WriteNo) -> Option<WriteNo>
    requires { n < nodes_of (sizes (core_of core.now)) }
    ensures { result ≡ write_from k ((core_of core.now).writes n) }
{
    core.requests.write_from(n, k)
}

fn read_from(core: &CoreState, n: NodeId, k: ReadNo) -> Option<ReadNo>
    requires { n < nodes_of (sizes (core_of core.now)) }
    ensures { result ≡ read_from k ((core_of core.now).reads n) }
{
    core.requests.read_from(n, k)
}

/// Whether fewer than four writes of the node are in flight.
pub fn has_few_writes(core: &CoreState, n: NodeId) -> bool
    requires ready { Ready (core_of core.now) }
    requires node { n < nodes_of (sizes (core_of core.now)) }
    ensures { result ≡ nat_lt (length ((core_of core.now).writes n)) 4 }
{
    let mut from = 0;
    for seen in 0..4u32 {
        match write_from(core, n, from) {
            None => return true,
            Some(k) => from = k + 1,
        }
    }
    false
}

/// Whether fewer than four reads of the node are in flight.
pub fn has_few_reads(core: &CoreState, n: NodeId) -> bool
    requires ready { Ready (core_of core.now) }
    requires node { n < nodes_of (sizes (core_of core.now)) }
    ensures { result ≡ nat_lt (length ((core_of core.now).reads n)) 4 }
{
    let mut from = 0;
    for seen in 0..4u32 {
        match read_from(core, n, from) {
            None => return true,
            Some(k) => from = k + 1,
        }
    }
    false
}
