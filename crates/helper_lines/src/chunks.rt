// The chunks that may leave the node's set.
ghost use Rattle.std.specs.Prelude.{◌≡◌, ◌<◌, ◌-◌};
ghost use Rattle.dlm_modes.specs.First.{first_such};
ghost use Rattle.mdc_types.specs.Geometry.{chunks_of, nodes_of};
ghost use Rattle.cluster_model.specs.State.{sizes};
ghost use Rattle.driver_rules.specs.Lines.{cleaning, chunk_to_clear, allowed_at};
ghost use Rattle.world_state.specs.Kept.{core_of};
ghost use Rattle.world_state.specs.Ready.{Ready};
ghost use Rattle.helper_lines.specs.Chunks.{is_settled, is_still, rests};

use crate::pages::freshening;
use cluster_core::may;
use mdc_types::{ChunkNo, Event, NodeId};
use world_state::CoreState;

// The first chunk from `from` on that is set and isn't to be copied.
fn settled_from(core: &CoreState, n: NodeId, from: ChunkNo) -> Option<ChunkNo>
    requires { n < nodes_of (sizes (core_of core.now)) }
    ensures { result ≡ first_such (is_settled (core_of core.now) n) from
        (chunks_of (sizes (core_of core.now)) - from) }
{
    core.bitmaps.first_settled_from(n, from)
}

// No live write is in the chunk.
#[tactic(auto, using(crate::proofs::Looking::none_is))]
fn rests(core: &CoreState, n: NodeId, c: ChunkNo) -> bool
    requires node { n < nodes_of (sizes (core_of core.now)) }
    requires chunk { c < chunks_of (sizes (core_of core.now)) }
    ensures { result ≡ rests (core_of core.now) n c }
{
    let sectors = core.identity.geometry.chunk_range(c);
    core.requests.drain(n, sectors).is_none()
}

// The first chunk that is set, isn't to be copied and has no live write.
fn first_still(core: &CoreState, n: NodeId) -> Option<ChunkNo>
    requires ready { Ready (core_of core.now) }
    requires node { n < nodes_of (sizes (core_of core.now)) }
    ensures { result ≡ first_such (is_still (core_of core.now) n) 0
        (chunks_of (sizes (core_of core.now))) }
{
    let mut from = 0;
    while let Some(c) = settled_from(core, n, from) {
        if rests(core, n, c) {
            return Some(c);
        }
        from = c + 1;
    }
    None
}

// The first chunk that may leave the set. The guards that speak of no chunk are the same for all: they
// are tried for the first chunk that passes the others.
fn chunk_to_clear(core: &CoreState, n: NodeId) -> Option<ChunkNo>
    requires ready { Ready (core_of core.now) }
    requires node { n < nodes_of (sizes (core_of core.now)) }
    ensures { result ≡ chunk_to_clear (core_of core.now) n }
{
    let c = first_still(core, n)?;
    match may(core, &Event::Clear(n, c)) {
        Ok(()) => Some(c),
        Err(_) => None,
    }
}

fn clearing(core: &CoreState, n: NodeId) -> Option<Event>
    requires ready { Ready (core_of core.now) }
    requires node { n < nodes_of (sizes (core_of core.now)) }
    ensures { result ≡ allowed_at (core_of core.now) (Event.Clear n)
        (chunk_to_clear (core_of core.now) n) }
{
    let c = chunk_to_clear(core, n)?;
    Some(Event::Clear(n, c))
}

/// The first chunk that may leave the set leaves it, or the first page that isn't fresh on a target is
/// written there.
pub fn cleaning(core: &CoreState, n: NodeId) -> Option<Event>
    requires ready { Ready (core_of core.now) }
    requires node { n < nodes_of (sizes (core_of core.now)) }
    ensures { result ≡ cleaning (core_of core.now) n }
{
    clearing(core, n).or_else(|| freshening(core, n))
}
