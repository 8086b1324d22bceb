ghost use Rattle.std.specs.Prelude.{◌≡◌, ◌<◌, ◌≤◌, ◌-◌, ◌+◌, ◌*◌, ◌/◌, ◌^◌, true, false, min, max, is_some, length, get_or, slice_set, replicate, IfOk, vec_len};
ghost use Rattle.dlm_modes.specs.First.{first_such};
ghost use Rattle.mdc_types.specs.Blocks.{Covers};

use crate::ChunkNo;
use std::alloc::{AllocError, Global};
use std::marker::Model;

/// A set of chunks of an array, which notes by block of 128 chunks whether one of them may be in it.
///
/// Contracts see it as one flag for each chunk of the array.
#[derive(Drop)]
pub struct ChunkSet {
    flags: Vec<bool>,
    blocks: Vec<bool>,
}

impl Model for ChunkSet {
    ghost use Rattle.std.specs.Prelude.{List, Bool};
    ghost use Rattle.mdc_types.specs.Blocks.{IsIndexed};

    ghost Value = { List Bool };

    ghost view = { λ set. set.flags.items };

    ghost invariant = { λ set. IsIndexed set.flags.items set.blocks.items };
}

// How many chunks a block has.
const BLOCK: usize = 128;

fn block_of(c: ChunkNo) -> usize
    ensures { result ≡ c / 128 }
{
    c as usize / BLOCK
}

// The first place from `from` on and below `to` whose flag is set.
fn first_between(flags: &[bool], from: usize, to: usize) -> Option<usize>
    requires { to ≤ length flags.now }
    ensures { result ≡ first_such (λ k. get_or flags.now k false) from (to - from) }
{
    for k in from..to {
        if flags[k] {
            return Some(k);
        }
    }
    None
}

// The first place of block `b` from `from` on whose flag is set: none where the block isn't marked.
fn first_in_block(flags: &[bool], blocks: &[bool], b: usize, from: usize) -> Option<usize>
    requires covers { Covers flags.now blocks.now }
    requires block { b < length blocks.now }
    ensures { result ≡ first_such (λ k. get_or flags.now k false) (max (128 * b) from)
        (min (128 * b + 128) (length flags.now) - max (128 * b) from) }
{
    if !blocks[b] {
        return None;
    }
    let start = b * BLOCK;
    first_between(flags, start.max(from), (start + BLOCK).min(flags.len()))
}

// The first place from `from` on whose flag is set, where only flags of marked blocks are.
fn first_of(flags: &[bool], blocks: &[bool], from: usize) -> Option<usize>
    requires { Covers flags.now blocks.now }
    ensures { result ≡ first_such (λ k. get_or flags.now k false) from (length flags.now - from) }
{
    for b in from / BLOCK..blocks.len() {
        if let Some(k) = first_in_block(flags, blocks, b, from) {
            return Some(k);
        }
    }
    None
}

// Whether a flag of block `b` is set.
fn has_one(flags: &[bool], b: usize) -> bool
    requires { 128 * b ≤ length flags.now }
    ensures { result ≡ is_some (first_such (λ k. get_or flags.now k false) (128 * b)
        (min (128 * b + 128) (length flags.now) - 128 * b)) }
{
    let start = b * BLOCK;
    first_between(flags, start, (start + BLOCK).min(flags.len())).is_some()
}

impl ChunkSet {
    /// The empty set, for an array of this many chunks.
    pub fn new(alloc: Global, chunks: u32) -> Result<ChunkSet, AllocError>
        ensures { IfOk result (λ set. set ≡ replicate chunks false) }
    {
        let chunks = chunks as usize;
        Ok(ChunkSet {
            flags: vec![in alloc; false; chunks]?,
            blocks: vec![in alloc; false; chunks.div_ceil(BLOCK)]?,
        })
    }

    /// Puts the chunk in.
    pub fn add(&mut self, c: ChunkNo)
        requires { c < length self.old }
        ensures { self.new ≡ slice_set self.old c true }
    {
        self.flags[c as usize] = true;
        self.blocks[block_of(c)] = true;
    }

    /// Takes the chunk out.
    pub fn remove(&mut self, c: ChunkNo)
        requires { c < length self.old }
        ensures { self.new ≡ slice_set self.old c false }
    {
        if !self.has(c) {
            return;
        }
        self.flags[c as usize] = false;
        let b = block_of(c);
        self.blocks[b] = has_one(&self.flags, b);
    }

    /// Whether the chunk is in the set.
    pub fn has(&self, c: ChunkNo) -> bool
        requires { c < length self.now }
        ensures { result ≡ get_or self.now c false }
    {
        self.flags[c as usize]
    }

    /// The least chunk of the set from `c` on.
    pub fn first_from(&self, c: ChunkNo) -> Option<ChunkNo>
        ensures { result ≡ first_such (λ k. get_or self.now k false) c (length self.now - c) }
    {
        let k = first_of(&self.flags, &self.blocks, c as usize)?;
        Some(k as u32)
    }

    /// The number of chunks of the array.
    pub fn chunks(&self) -> u32
        ensures { result ≡ length self.now }
    {
        self.flags.len() as u32
    }

    /// Puts all chunks in.
    pub fn fill(&mut self)
        ensures { self.new ≡ replicate (length self.old) true }
    {
        self.flags.fill(true);
        self.blocks.fill(true);
    }

    /// Becomes equal to another set of the same array.
    pub fn copy_from(&mut self, other: &ChunkSet)
        requires { length other.now ≡ length self.old }
        ensures { self.new ≡ other.now }
    {
        self.flags.copy_from_slice(&other.flags);
        self.blocks.copy_from_slice(&other.blocks);
    }

    /// Takes all chunks out.
    pub fn clear(&mut self)
        ensures { self.new ≡ replicate (length self.old) false }
    {
        self.flags.fill(false);
        self.blocks.fill(false);
    }
}

#[cfg(test)]
mod tests {
    use super::*;
    use std::test::Fail;

    #[test]
    fn least_chunks(rt: HostRuntime) -> Result<(), Fail> {
        let mut set = ChunkSet::new(rt.alloc(), 10)?;
        assert_eq!(rt; set.chunks(), 10);
        assert_eq!(rt; set.first_from(0), None);
        set.add(3);
        set.add(9);
        for (c, least) in [(0, Some(3)), (3, Some(3)), (4, Some(9)), (10, None)] {
            assert_eq!(rt; set.first_from(c), least, "from {c}");
        }
        set.remove(3);
        assert!(rt; set.has(9) && !set.has(3));
        assert_eq!(rt; set.first_from(0), Some(9));
        let mut other = ChunkSet::new(rt.alloc(), 10)?;
        other.fill();
        assert!(rt; other.has(0) && other.has(9) && other.chunks() == set.chunks());
        other.copy_from(&set);
        assert!(rt; other.has(9) && !other.has(3));
        set.clear();
        assert_eq!(rt; set.first_from(0), None);
        Ok(())
    }

    #[test]
    fn least_chunks_of_blocks(rt: HostRuntime) -> Result<(), Fail> {
        let mut set = ChunkSet::new(rt.alloc(), 300)?;
        set.add(128);
        set.add(299);
        assert_eq!(rt; set.first_from(0), Some(128));
        assert_eq!(rt; set.first_from(129), Some(299));
        set.remove(128);
        assert_eq!(rt; set.first_from(0), Some(299));
        set.remove(299);
        assert_eq!(rt; set.first_from(0), None);
        Ok(())
    }
}
