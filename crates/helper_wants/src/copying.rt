// What a node that copies wants to tell: the window that it needs, its end, and a leg that was copied to.
ghost use Rattle.std.specs.Prelude.{◌≡◌, ◌<◌, option_map};
ghost use Rattle.mdc_types.specs.Geometry.{chunks_of, nodes_of};
ghost use Rattle.cluster_model.specs.State.{sizes};
ghost use Rattle.driver_rules.specs.Wants.{todo_chunk, covered_leg, window_from, needs_window, window_of, closing_of};
ghost use Rattle.world_state.specs.Kept.{core_of};

use mdc_types::{ChunkNo, Geometry, LegId, NodeId, Range, Wish};
use world_repair::looks;
use world_state::CoreState;

/// The first chunk that the node's pass is still to copy. None where there is no pass.
#[tactic(auto, using(crate::proofs::WantLaws::left_is))]
pub fn todo_chunk(core: &CoreState, n: NodeId) -> Option<ChunkNo>
    requires { n < nodes_of (sizes (core_of core.now)) }
    ensures { result ≡ todo_chunk (core_of core.now) n }
{
    core.copies.left(n)
}

/// The first leg that the node's pass covers. None where there is no pass.
#[tactic(auto, using(crate::proofs::WantLaws::covered_is))]
pub fn covered_leg(core: &CoreState, n: NodeId) -> Option<LegId>
    requires { n < nodes_of (sizes (core_of core.now)) }
    ensures { result ≡ covered_leg (core_of core.now) n }
{
    core.copies.covered(n)
}

// The chunks of a window.
const WINDOW_CHUNKS: ChunkNo = 8;

// The window from chunk `c` on, cut at the end of the room.
fn window_from(g: &Geometry, c: ChunkNo) -> Wish
    requires { c < chunks_of g.now }
    ensures { result ≡ window_from g.now c }
{
    let (room, chunk) = (g.room(), g.chunk());
    Wish::Range(Range {
        lo: c * chunk,
        hi: ((c + WINDOW_CHUNKS) * chunk).min(room),
    })
}

// Nothing that is to be copied lies in an open window, and there is no buffer.
#[tactic(auto, using(crate::proofs::WantLaws::none_map))]
fn needs_window(core: &CoreState, n: NodeId) -> bool
    requires { n < nodes_of (sizes (core_of core.now)) }
    ensures { result ≡ needs_window (core_of core.now) n }
{
    looks::next_sector(core, n).is_none() && looks::buffer(core, n).is_none()
}

/// The window that the node needs, where something is left to copy.
pub fn window_of(core: &CoreState, n: NodeId) -> Option<Wish>
    requires { n < nodes_of (sizes (core_of core.now)) }
    ensures { result ≡ window_of (core_of core.now) n }
{
    if !needs_window(core, n) {
        return None;
    }
    let c = todo_chunk(core, n)?;
    Some(window_from(&core.identity.geometry, c))
}

/// The empty range, where nothing is left to copy and a window is open.
pub fn closing_of(core: &CoreState, n: NodeId) -> Option<Wish>
    requires { n < nodes_of (sizes (core_of core.now)) }
    ensures { result ≡ closing_of (core_of core.now) n }
{
    let is_over = todo_chunk(core, n).is_none() && core.copies.window(n).is_some();
    is_over.then_some(Wish::Range(Range { lo: 0, hi: 0 }))
}

/// The end of the copying to the first leg that the pass covers.
pub fn work_of(core: &CoreState, n: NodeId) -> Option<Wish>
    requires { n < nodes_of (sizes (core_of core.now)) }
    ensures { result ≡ option_map Wish.Work (covered_leg (core_of core.now) n) }
{
    covered_leg(core, n).map(Wish::Work)
}
