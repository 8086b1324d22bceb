ghost use Rattle.std.specs.Prelude.{◌≡◌, ◌<◌, ◌∷◌, [], IfOk, string_bytes, codes, decimal};
ghost use Rattle.report_text.specs.Lines.{line};
ghost use Rattle.report_text.specs.Sets.{numbers_text, roles_text};
ghost use Rattle.report_text.specs.Words.{phase_word};
ghost use Rattle.report_text.specs.Queries.{view_line, size_line, map_line, slot_line, record_line, legal_line, bad_line, compared_line};

use crate::line::Field::{Number, Numbers, RoleLetters, Word};
use crate::line::Line::{One, Two};
use crate::line::join;
use crate::sets::{chunks_on_leg, legs_of, live_nodes, needed_chunks, pending_nodes, set_chunks};
use crate::words::phase_word;
use leg_failure::View;
use mdc_types::{LegId, NodeId, NodeState, Roles, SectorNo, Word as Phase};
use node_bitmaps::NodeMap;
use node_member::Record;
use std::alloc::{AllocError, Global};

fn live_view<'a>(
    alloc: Global,
    node: u64,
    phase: Phase,
    roles: &'a Roles,
    legs: u8,
    lost: &'a [u32],
    unacked: &'a [u32],
) -> Result<String, AllocError>
    ensures { IfOk result (λ t. string_bytes t ≡ line (codes "view") (decimal node ∷ phase_word phase ∷ roles_text roles.now legs ∷ codes "lost" ∷ numbers_text lost.now ∷ codes "unacked" ∷ numbers_text unacked.now ∷ [])) }
{
    let fields = [
        Number(node),
        Word(phase_word(phase)),
        RoleLetters(roles, legs),
        Word("lost"),
        Numbers(lost),
        Word("unacked"),
        Numbers(unacked),
    ];
    join(alloc, "view", &fields)
}

/// The text of the query `view N`: `view N out`, `view N joining`, or the node's state, the roles of
/// the legs, the legs that it lost, and those that the others may not know of. It has no line feed.
pub fn view_text(
    alloc: Global,
    n: NodeId,
    state: NodeState,
    v: &View,
    legs: u8,
) -> Result<String, AllocError>
    ensures { IfOk result (λ t. string_bytes t ≡ view_line n state v.now legs) }
{
    let node = u64::from(n);
    match state {
        NodeState::Out => join(alloc, "view", &[Number(node), Word("out")]),
        NodeState::Joining => join(alloc, "view", &[Number(node), Word("joining")]),
        NodeState::Loaded | NodeState::Up => {
            let lost = legs_of(alloc, v.lost())?;
            let unacked = legs_of(alloc, v.unacked())?;
            live_view(alloc, node, state.word(), v.roles(), legs, &lost, &unacked)
        }
    }
}

/// The text of the query `size N`: `size N out`, `size N joining`, or the size that the node took and
/// the one that it knows all to have, in sectors. It has no line feed.
pub fn size_text(alloc: Global, n: NodeId, state: NodeState, v: &View) -> Result<String, AllocError>
    ensures { IfOk result (λ t. string_bytes t ≡ size_line n state v.now) }
{
    let node = Number(u64::from(n));
    match state {
        NodeState::Out => join(alloc, "size", &[node, Word("out")]),
        NodeState::Joining => join(alloc, "size", &[node, Word("joining")]),
        NodeState::Loaded | NodeState::Up => {
            let taken = Number(u64::from(v.size()));
            let sure = Number(u64::from(v.sure_size()));
            join(alloc, "size", &[node, taken, Word("sure"), sure])
        }
    }
}

fn chunk_sets<'a>(
    alloc: Global,
    n: NodeId,
    set: &'a [u32],
    need: &'a [u32],
) -> Result<String, AllocError>
    ensures { IfOk result (λ t. string_bytes t ≡ line (codes "map") (decimal n ∷ codes "set" ∷ numbers_text set.now ∷ codes "need" ∷ numbers_text need.now ∷ [])) }
{
    let fields = [
        Number(u64::from(n)),
        Word("set"),
        Numbers(set),
        Word("need"),
        Numbers(need),
    ];
    join(alloc, "map", &fields)
}

/// The text of the query `map N`: the chunks of the node's bitmap, and those that it is to copy. It has
/// no line feed.
pub fn map_text(alloc: Global, n: NodeId, m: &NodeMap) -> Result<String, AllocError>
    ensures { IfOk result (λ t. string_bytes t ≡ map_line n m.now) }
{
    let set = set_chunks(alloc, m)?;
    let need = needed_chunks(alloc, m)?;
    chunk_sets(alloc, n, &set, &need)
}

/// The text of the query `slot L D`: the chunks whose bits in the slot of node `d` surely stand on the
/// leg. It has no line feed.
pub fn slot_text(alloc: Global, l: LegId, d: NodeId, m: &NodeMap) -> Result<String, AllocError>
    requires { l < 8 }
    ensures { IfOk result (λ t. string_bytes t ≡ slot_line l d m.now) }
{
    let set = chunks_on_leg(alloc, m, l)?;
    let fields = [
        Number(u64::from(l)),
        Number(u64::from(d)),
        Word("set"),
        Numbers(&set),
    ];
    join(alloc, "slot", &fields)
}

fn node_sets<'a>(
    alloc: Global,
    live: &'a [u32],
    pending: &'a [u32],
    drawn: u64,
    completed: u64,
) -> Result<String, AllocError>
    ensures { IfOk result (λ t. string_bytes t ≡ line (codes "record") (codes "live" ∷ numbers_text live.now ∷ codes "pending" ∷ numbers_text pending.now ∷ codes "drawn" ∷ decimal drawn ∷ codes "completed" ∷ decimal completed ∷ [])) }
{
    let fields = [
        Word("live"),
        Numbers(live),
        Word("pending"),
        Numbers(pending),
        Word("drawn"),
        Number(drawn),
        Word("completed"),
        Number(completed),
    ];
    join(alloc, "record", &fields)
}

/// The text of the query `record`: the live nodes, the pending slots, the greatest events number drawn
/// and the last one completed. It has no line feed.
pub fn record_text(alloc: Global, r: &Record) -> Result<String, AllocError>
    ensures { IfOk result (λ t. string_bytes t ≡ record_line r.now) }
{
    let live = live_nodes(alloc, r)?;
    let pending = pending_nodes(alloc, r)?;
    node_sets(alloc, &live, &pending, r.drawn(), r.completed())
}

/// The answer to the query `check` where the trace of so many entries is legal. It has no line feed.
pub fn legal_text(alloc: Global, entries: usize) -> Result<String, AllocError>
    ensures { IfOk result (λ t. string_bytes t ≡ legal_line entries) }
{
    One("legal", Number(entries as u64)).text(alloc)
}

/// The answer to the query `check` where the entry at this place, from 1, is the first that isn't
/// legal. It has no line feed.
pub fn bad_text(alloc: Global, place: u64) -> Result<String, AllocError>
    ensures { IfOk result (λ t. string_bytes t ≡ bad_line place) }
{
    One("bad", Number(place)).text(alloc)
}

/// What a comparison of the working legs found.
#[derive(Clone, Copy, PartialEq, Eq, Debug)]
pub enum Compared {
    /// They hold the same.
    Equal,
    /// This is the least sector in which two of them differ.
    Differ(SectorNo),
    /// A read of this leg failed.
    Unread(LegId),
}

/// The text of the query `compare`. It has no line feed.
pub fn compared_text(alloc: Global, found: Compared) -> Result<String, AllocError>
    ensures { IfOk result (λ t. string_bytes t ≡ compared_line found) }
{
    match found {
        Compared::Equal => One("legs", Word("equal")).text(alloc),
        Compared::Differ(s) => Two("legs", Word("differ"), Number(u64::from(s))).text(alloc),
        Compared::Unread(l) => Two("legs", Word("unread"), Number(u64::from(l))).text(alloc),
    }
}
