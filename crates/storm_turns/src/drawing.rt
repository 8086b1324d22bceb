ghost use Rattle.std.specs.Prelude.{◌≡◌, ◌<◌, ◌≤◌, ◌+◌, ◌++◌, ◌||◌, ◌&&◌, nat_lt, ℕ, true, None, Some, length, get_or};
ghost use Rattle.mdc_types.specs.Geometry.{nodes_of};
ghost use Rattle.cluster_model.specs.State.{sizes};
ghost use Rattle.cluster_model.specs.Phases.{is_up};
ghost use Rattle.driver_rules.specs.Helpers.{enabled};
ghost use Rattle.driver_rules.specs.Storms.{choices, choice_if, helps as helping, of_choice, one_of, drawn, drawn_of, live_nodes, Writing, Reading, Choice as rule_choice};
ghost use Rattle.world_state.specs.Kept.{core_of};
ghost use Rattle.world_state.specs.Ready.{Ready};
ghost use Rattle.storm_turns.specs.Choosing.{choice_of, has_sector, one_if};

use crate::generator::{draw_below, next_seed, turn_value};
use crate::nodes::{has_few_reads, has_few_writes, is_up, live_nodes};
use helper_list::enabled;
use mdc_types::{Event, NodeId};
use world_state::CoreState;

/// An event, where there is one, and the generator's state after it was drawn.
#[derive(Clone, Copy)]
pub struct Drawn {
    pub event: Option<Event>,
    pub seed: u64,
}

/// What may be drawn for a node.
#[derive(Clone, Copy)]
pub enum Choice {
    Help(Event),
    Write,
    Read,
}

// The choice of this number: first the helping events, then a write, then a read.
fn choice_at(helps: &[Event], may_write: bool, may_read: bool, k: usize) -> Choice
    requires { k < length (helping helps.now ++ choice_if may_write Writing ++ choice_if may_read Reading) }
    ensures choice { (d : rule_choice) → choice_of result
        ≡ get_or (helping helps.now ++ choice_if may_write Writing ++ choice_if may_read Reading) k d }
    ensures sector { has_sector result ≡ true → (may_write || may_read) ≡ true }
{
    if k < helps.len() {
        return Choice::Help(helps[k]);
    }
    if may_write && k == helps.len() {
        return Choice::Write;
    }
    Choice::Read
}

// The event of a choice in turn `i`. A write or a read draws its sector.
fn of_choice(core: &CoreState, n: NodeId, i: u32, x: u64, choice: Choice) -> Drawn
    requires ready { Ready (core_of core.now) }
    requires node { n < nodes_of (sizes (core_of core.now)) }
    requires up { has_sector choice ≡ true → is_up ((core_of core.now).state n) ≡ true }
    ensures event { result.event ≡ (of_choice (core_of core.now) n i x (choice_of choice)).event }
    ensures seed { result.seed ≡ (of_choice (core_of core.now) n i x (choice_of choice)).seed }
{
    match choice {
        Choice::Help(e) => Drawn {
            event: Some(e),
            seed: x,
        },
        Choice::Write => {
            let seed = next_seed(x);
            let s = draw_below(seed, core.view(n).sure_size());
            Drawn {
                event: Some(Event::AskWrite(n, s, turn_value(i))),
                seed,
            }
        }
        Choice::Read => {
            let seed = next_seed(x);
            let s = draw_below(seed, core.view(n).sure_size());
            Drawn {
                event: Some(Event::AskRead(n, s)),
                seed,
            }
        }
    }
}

fn may_write(core: &CoreState, n: NodeId) -> bool
    requires ready { Ready (core_of core.now) }
    requires node { n < nodes_of (sizes (core_of core.now)) }
    ensures { result ≡ (is_up ((core_of core.now).state n)
        && nat_lt (length ((core_of core.now).writes n)) 4) }
{
    is_up(core, n) && has_few_writes(core, n)
}

fn may_read(core: &CoreState, n: NodeId) -> bool
    requires ready { Ready (core_of core.now) }
    requires node { n < nodes_of (sizes (core_of core.now)) }
    ensures { result ≡ (is_up ((core_of core.now).state n)
        && nat_lt (length ((core_of core.now).reads n)) 4) }
{
    is_up(core, n) && has_few_reads(core, n)
}

fn one_if(b: bool) -> u32
    ensures value { result ≡ one_if b }
    ensures few { result ≤ 1 }
{
    if b { 1 } else { 0 }
}

fn choice_count(helps: &[Event], may_write: bool, may_read: bool) -> u32
    requires { length helps.now ≤ 13 }
    ensures { result ≡ length helps.now + one_if may_write + one_if may_read }
{
    let write = one_if(may_write);
    let read = one_if(may_read);
    helps.len() as u32 + write + read
}

// One of the node's choices, where there is one.
fn one_of(core: &CoreState, n: NodeId, i: u32, x: u64) -> Drawn
    requires ready { Ready (core_of core.now) }
    requires node { n < nodes_of (sizes (core_of core.now)) }
    ensures event { result.event
        ≡ (one_of (core_of core.now) n i x (choices (core_of core.now) n)).event }
    ensures seed { result.seed
        ≡ (one_of (core_of core.now) n i x (choices (core_of core.now) n)).seed }
{
    let events = enabled(core, n);
    let helps = events.as_slice();
    let write = may_write(core, n);
    let read = may_read(core, n);
    let count = choice_count(helps, write, read);
    if count == 0 {
        return Drawn {
            event: None,
            seed: x,
        };
    }
    let seed = next_seed(x);
    let k = draw_below(seed, count) as usize;
    let choice = choice_at(helps, write, read, k);
    of_choice(core, n, i, seed, choice)
}

// One of the nodes, where there is one.
fn node_drawn(nodes: &[NodeId], x: u64) -> Option<NodeId>
    requires { length nodes.now ≤ 16 }
    ensures none { result ≡ None → length nodes.now ≡ 0 }
    ensures some { (n : ℕ) → result ≡ Some n → 0 < length nodes.now }
    ensures value { (n : ℕ) → result ≡ Some n
        → n ≡ get_or nodes.now (drawn x (length nodes.now)) 0 }
{
    if nodes.is_empty() {
        return None;
    }
    let k = draw_below(x, nodes.len() as u32);
    Some(nodes[k as usize])
}

/// A live node, and one of its choices, both drawn.
pub fn drawn_turn(core: &CoreState, i: u32, x: u64) -> Drawn
    requires { Ready (core_of core.now) }
    ensures event { result.event
        ≡ (drawn_of (core_of core.now) i x (live_nodes (core_of core.now))).event }
    ensures seed { result.seed
        ≡ (drawn_of (core_of core.now) i x (live_nodes (core_of core.now))).seed }
{
    let nodes = live_nodes(core);
    let seed = next_seed(x);
    match node_drawn(nodes.as_slice(), seed) {
        None => Drawn {
            event: None,
            seed: x,
        },
        Some(n) => one_of(core, n, i, seed),
    }
}
