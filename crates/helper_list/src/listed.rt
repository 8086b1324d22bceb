// The lines of a node, and what they give.
ghost use Rattle.std.specs.Prelude.{◌≡◌, ◌<◌, ◌≤◌, ◌++◌, length};
ghost use Rattle.dlm_modes.specs.Guards.{first_of};
ghost use Rattle.mdc_types.specs.Geometry.{nodes_of};
ghost use Rattle.cluster_model.specs.State.{sizes};
ghost use Rattle.driver_rules.specs.Helpers.{found, lines, enabled, first_enabled};
ghost use Rattle.helper_list.specs.Parts.{of_messages, of_transfers, of_passes};
ghost use Rattle.world_state.specs.Kept.{core_of};
ghost use Rattle.world_state.specs.Ready.{Ready};

use arrayvec::ArrayVec;
use helper_lines::{beginning, cleaning, copying, ending, flying, marking, recovering, turning};
use helper_rounds::{asking, granting, joining, receiving, sending};
use mdc_types::{Event, NodeId};
use world_state::CoreState;

// What each of the thirteen lines gives.
fn lines(core: &CoreState, n: NodeId) -> [Option<Event>; 13]
    requires ready { Ready (core_of core.now) }
    requires node { n < nodes_of (sizes (core_of core.now)) }
    ensures { result ≡ lines (core_of core.now) n }
{
    [
        receiving(core, n),
        granting(core, n),
        joining(core, n),
        sending(core, n),
        asking(core, n),
        marking(core, n),
        flying(core, n),
        recovering(core, n),
        copying(core, n),
        beginning(core, n),
        ending(core, n),
        turning(core, n),
        cleaning(core, n),
    ]
}

// What was found, in its order.
#[tactic(auto, using(crate::proofs::ListLaws::found_some, crate::proofs::ListLaws::found_none))]
fn found(lines: &[Option<Event>]) -> ArrayVec<Event, 13>
    requires { length lines.now ≤ 13 }
    ensures { result.items ≡ found lines.now }
{
    let mut events = ArrayVec::new();
    for line in lines {
        if let Some(e) = line {
            events.push(*e);
        }
    }
    events
}

/// The helping events of the node, in the order of their lines.
pub fn enabled(core: &CoreState, n: NodeId) -> ArrayVec<Event, 13>
    requires ready { Ready (core_of core.now) }
    requires node { n < nodes_of (sizes (core_of core.now)) }
    ensures { result.items ≡ enabled (core_of core.now) n }
{
    found(&lines(core, n))
}

// The first event of the lines of messages.
fn of_messages(core: &CoreState, n: NodeId) -> Option<Event>
    requires ready { Ready (core_of core.now) }
    requires node { n < nodes_of (sizes (core_of core.now)) }
    ensures { result ≡ first_of (of_messages (core_of core.now) n) }
{
    receiving(core, n)
        .or_else(|| granting(core, n))
        .or_else(|| joining(core, n))
        .or_else(|| sending(core, n))
        .or_else(|| asking(core, n))
}

// The first event of the lines of transfers.
fn of_transfers(core: &CoreState, n: NodeId) -> Option<Event>
    requires ready { Ready (core_of core.now) }
    requires node { n < nodes_of (sizes (core_of core.now)) }
    ensures { result ≡ first_of (of_transfers (core_of core.now) n) }
{
    marking(core, n)
        .or_else(|| flying(core, n))
        .or_else(|| recovering(core, n))
        .or_else(|| copying(core, n))
}

// The first event of the lines of passes.
fn of_passes(core: &CoreState, n: NodeId) -> Option<Event>
    requires ready { Ready (core_of core.now) }
    requires node { n < nodes_of (sizes (core_of core.now)) }
    ensures { result ≡ first_of (of_passes (core_of core.now) n) }
{
    beginning(core, n)
        .or_else(|| ending(core, n))
        .or_else(|| turning(core, n))
        .or_else(|| cleaning(core, n))
}

fn after_messages(core: &CoreState, n: NodeId) -> Option<Event>
    requires ready { Ready (core_of core.now) }
    requires node { n < nodes_of (sizes (core_of core.now)) }
    ensures { result ≡ first_of (of_transfers (core_of core.now) n
        ++ of_passes (core_of core.now) n) }
{
    match of_transfers(core, n) {
        Some(e) => Some(e),
        None => of_passes(core, n),
    }
}

/// The first of the node's helping events. The lines after it aren't looked at.
pub fn first_enabled(core: &CoreState, n: NodeId) -> Option<Event>
    requires ready { Ready (core_of core.now) }
    requires node { n < nodes_of (sizes (core_of core.now)) }
    ensures { result ≡ first_enabled (core_of core.now) n }
{
    match of_messages(core, n) {
        Some(e) => Some(e),
        None => after_messages(core, n),
    }
}
