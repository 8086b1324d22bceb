// Searches that pass over blocks of chunks.
ghost use Rattle.std.specs.Prelude.{◌≡◌, ◌<◌, ◌≤◌, ◌-◌, ◌*◌, ◌+◌, min, max, length, is_some};
ghost use Rattle.dlm_modes.specs.First.{first_such};
ghost use Rattle.node_bitmaps.specs.Map.{bitmap_of, chunks_in};
ghost use Rattle.map_index.specs.Index.{is_sought, Covers};

use mdc_types::ChunkNo;
use node_bitmaps::NodeMap;

/// How many chunks a block has.
pub const BLOCK: u32 = 128;

/// What is sought.
#[derive(Clone, Copy)]
pub enum Sought {
    /// A chunk of the set.
    InSet,
    /// A chunk that is to be copied.
    Needed,
    /// A chunk of the set that isn't to be copied.
    Settled,
}

// Whether the chunk is sought.
fn is_sought(map: &NodeMap, sought: Sought, c: ChunkNo) -> bool
    requires { c < chunks_in map.now }
    ensures { result ≡ is_sought sought (bitmap_of map.now) c }
{
    match sought {
        Sought::InSet => map.has(c),
        Sought::Needed => map.needs(c),
        Sought::Settled => map.has(c) && !map.needs(c),
    }
}

/// The first chunk from `from` on and below `to` that is sought.
pub fn first_between(map: &NodeMap, sought: Sought, from: ChunkNo, to: ChunkNo) -> Option<ChunkNo>
    requires { to ≤ chunks_in map.now }
    ensures { result ≡ first_such (is_sought sought (bitmap_of map.now)) from (to - from) }
{
    for c in from..to {
        if is_sought(map, sought, c) {
            return Some(c);
        }
    }
    None
}

// The first chunk of block `b` from `from` on that is sought: none where the block isn't marked.
fn first_in_block(
    map: &NodeMap,
    sought: Sought,
    blocks: &[bool],
    b: usize,
    from: ChunkNo,
) -> Option<ChunkNo>
    requires covers { Covers (is_sought sought (bitmap_of map.now)) (chunks_in map.now) blocks.now }
    requires block { b < length blocks.now }
    ensures { result ≡ first_such (is_sought sought (bitmap_of map.now)) (max (128 * b) from)
        (min (128 * b + 128) (chunks_in map.now) - max (128 * b) from) }
{
    if !blocks[b] {
        return None;
    }
    let start = b as u32 * BLOCK;
    let end = (start + BLOCK).min(map.chunks());
    first_between(map, sought, start.max(from), end)
}

/// The first chunk of the map from `from` on that is sought, where only chunks of marked blocks are.
pub fn first_from(map: &NodeMap, sought: Sought, blocks: &[bool], from: ChunkNo) -> Option<ChunkNo>
    requires { Covers (is_sought sought (bitmap_of map.now)) (chunks_in map.now) blocks.now }
    ensures { result
        ≡ first_such (is_sought sought (bitmap_of map.now)) from (chunks_in map.now - from) }
{
    for b in (from / BLOCK) as usize..blocks.len() {
        if let Some(c) = first_in_block(map, sought, blocks, b, from) {
            return Some(c);
        }
    }
    None
}

/// Whether a chunk of block `b` is sought.
pub fn has_one(map: &NodeMap, sought: Sought, b: usize) -> bool
    requires { b < 496 }
    ensures { result ≡ is_some (first_such (is_sought sought (bitmap_of map.now)) (128 * b)
        (min (128 * b + 128) (chunks_in map.now) - 128 * b)) }
{
    let start = b as u32 * BLOCK;
    first_between(map, sought, start, (start + BLOCK).min(map.chunks())).is_some()
}

/// Marks just the blocks in which a chunk is sought.
pub fn mark_blocks(map: &NodeMap, sought: Sought, blocks: &mut [bool])
    requires enough { chunks_in map.now ≤ 128 * length blocks.old }
    requires few { length blocks.old ≤ 496 }
    ensures { Covers (is_sought sought (bitmap_of map.now)) (chunks_in map.now) blocks.new }
{
    for b in 0..blocks.len() {
        blocks[b] = has_one(map, sought, b);
    }
}
