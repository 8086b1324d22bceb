ghost use Rattle.std.specs.Prelude.{◌≡◌, ◌<◌, ◌≤◌, ◌+◌, ℕ, length, map, get_or, vec_len, IfErr, IfOk, OnOk};
ghost use Rattle.mdc_types.specs.Geometry.{length_of};
ghost use Rattle.image_array.specs.Legs.{AreAll};
ghost use Rattle.image_array.specs.Heads.{IsHead};
ghost use Rattle.image_opening.specs.Faults.{HaveBase, IsDataEnd};

use image_array::{Head, add_values};
use image_faults::{ImageError, LegImage};
use image_files::read_rows;
use leg_store::LegDev;
use mdc_types::{Sector, SectorNo};
use std::alloc::Global;
use std::thread::Threads;

// The sectors that are read of each leg at a time.
const BLOCK: u32 = 64;

// Takes in the data of so many sectors from `from` on.
fn add_block<R: Threads + Sync, L: LegDev>(
    rt: &R,
    alloc: Global,
    head: &Head,
    images: &[LegImage],
    legs: &mut Vec<L>,
    from: SectorNo,
    count: u32,
    base: &mut Vec<Vec<Sector>>,
) -> Result<(), ImageError>
    requires all { AreAll images.now }
    requires head { IsHead images.now head.now }
    requires many { length legs.old.items ≡ length images.now }
    requires long { (l : ℕ) → l < length legs.old.items
        → get_or (map L.size legs.old.items) l 0 ≡ length_of head.now.geometry }
    requires within { from + count ≤ head.now.geometry.room }
    requires base { HaveBase (map L.contents legs.old.items) head.now images.now from
        (map (λ values. values.items) base.old.items) }
    ensures base { OnOk result (HaveBase (map L.contents legs.old.items) head.now images.now
        (from + count) (map (λ values. values.items) base.new.items)) }
    ensures end { IfErr result (IsDataEnd (map L.contents legs.old.items) head.now images.now
        (map L.faults legs.new.items)) }
    ensures contents { map L.contents legs.new.items ≡ map L.contents legs.old.items }
    ensures size { map L.size legs.new.items ≡ map L.size legs.old.items }
{
    let at = head.geometry.data_offset() + from;
    let rows = read_rows(alloc, legs, &head.roles, at, count)?;
    add_values(rt, alloc, head, images, &rows, from, count, base)
}

/// The values of all data sectors, each of which is read once of each leg that works.
pub(crate) fn read_base<R: Threads + Sync, L: LegDev>(
    rt: &R,
    alloc: Global,
    head: &Head,
    images: &[LegImage],
    legs: &mut Vec<L>,
) -> Result<Vec<Vec<Sector>>, ImageError>
    requires all { AreAll images.now }
    requires head { IsHead images.now head.now }
    requires many { length legs.old.items ≡ length images.now }
    requires long { (l : ℕ) → l < length legs.old.items
        → get_or (map L.size legs.old.items) l 0 ≡ length_of head.now.geometry }
    ensures base { IfOk result (λ base. HaveBase (map L.contents legs.old.items) head.now images.now
        head.now.geometry.room (map (λ values. values.items) base.items)) }
    ensures end { IfErr result (IsDataEnd (map L.contents legs.old.items) head.now images.now
        (map L.faults legs.new.items)) }
    ensures contents { map L.contents legs.new.items ≡ map L.contents legs.old.items }
    ensures size { map L.size legs.new.items ≡ map L.size legs.old.items }
{
    let room = head.geometry.room();
    let mut base = Vec::with_capacity(alloc, room as usize)?;
    for block in 0..room.div_ceil(BLOCK) {
        let from = BLOCK * block;
        let count = (room - from).min(BLOCK);
        add_block(rt, alloc, head, images, legs, from, count, &mut base)?;
    }
    Ok(base)
}
