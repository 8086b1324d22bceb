ghost use Rattle.std.specs.Prelude.{◌≡◌, ◌<◌, length, IfOk};
ghost use Rattle.dlm_modes.specs.Guards.{first_of};
ghost use Rattle.image_faults.specs.Compare.{first_difference};
ghost use Rattle.crew_check.specs.Blocks.{blocks_of, first_in_block};

use image_faults::compare as compare_alone;
use mdc_types::Sector;
use rayon::prelude::*;
use std::alloc::{AllocError, Global};
use std::thread::Threads;

/// How many sectors are compared at a time. The last block may have fewer.
const BLOCK: usize = 64;

fn blocks_of(sectors: usize) -> usize
    ensures { result ≡ blocks_of sectors }
{
    sectors.div_ceil(BLOCK)
}

/// The first place of block `i` in which they differ.
fn first_in_block(a: &[Sector], b: &[Sector], i: usize) -> Option<usize>
    requires same { length b.now ≡ length a.now }
    requires within { i < blocks_of (length a.now) }
    ensures { result ≡ first_in_block a.now b.now i }
{
    let start = i * BLOCK;
    let end = a.len().min(start + BLOCK);
    match compare_alone(&a[start..end], &b[start..end]) {
        Some(place) => Some(start + place),
        None => None,
    }
}

fn first_found(found: &[Option<usize>]) -> Option<usize>
    ensures { result ≡ first_of found.now }
{
    for place in found {
        if place.is_some() {
            return *place;
        }
    }
    None
}

/// The first place in which two rows of sectors differ, None exactly where all are equal. Blocks of
/// them are compared in as many threads as there are processors, and a single block at once. `Err` is
/// want of memory.
pub fn compare<R: Threads + Sync>(
    rt: &R,
    alloc: Global,
    a: &[Sector],
    b: &[Sector],
) -> Result<Option<usize>, AllocError>
    requires { length b.now ≡ length a.now }
    ensures { IfOk result (λ place. place ≡ first_difference a.now b.now) }
{
    if a.len() <= BLOCK {
        return Ok(compare_alone(a, b));
    }
    let found: Vec<Option<usize>> = (0..blocks_of(a.len()))
        .into_par_iter()
        .map(
            |i: usize| -> Option<usize>
                requires { (i < blocks_of (length a.now)) × (length b.now ≡ length a.now) }
                ensures { result ≡ first_in_block a.entry.now b.entry.now i }
            { first_in_block(a, b, i) },
        )
        .collect(rt, alloc)?;
    Ok(first_found(found.as_slice()))
}
