ghost use Rattle.std.specs.Prelude.{◌≡◌, ◌<◌, ◌≤◌, ◌-◌, ◌/◌, ◌^◌, ◌++◌, ◌∷◌, [], length, min, IfOk, OnOk, true};
ghost use Rattle.std.specs.Result.{result_map_both};
ghost use Rattle.mdc_types.specs.Faults.{HasCause};
ghost use Rattle.mdc_types.specs.Geometry.{chunks_of, data_offset, nodes_of, page_sector, slot_pages};
ghost use Rattle.leg_store.specs.Leg.{Gives};
ghost use Rattle.image_faults.specs.Slots.{ArePages};
ghost use Rattle.image_faults.specs.Legs.{ReadsSlot, ReadsSlots, ReadsLeg, HaveSets, AllPages, FitsSuper, is_leg_failure, own_chunk};

use crate::sizes::{chunk_in, length_fault, sizes_of};
use crate::{ImageFault, read_slot};
use leg_store::LegDev;
use md_superblock::{Super, read_super, sum_of};
use mdc_types::{ChunkSet, Failed, Geometry, NodeId, Sector};
use std::alloc::{AllocError, Global};

const SUPERBLOCK: u32 = 8;

const FIRST_PAGE: u32 = 16;

/// Why a leg's image wasn't read.
#[derive(Clone, Copy, PartialEq, Eq, Debug)]
pub enum LegEnd {
    /// It has this fault.
    Fault(ImageFault),
    /// The leg failed in a transfer, and its count of faults rose.
    Failed,
    /// There was no memory.
    Memory(AllocError),
}

impl From<Failed> for LegEnd {
    ghost use Rattle.image_faults.specs.declared.legs.LegEnd.TheVariants as ends;

    ghost from_gives = { λ _ e. e ≡ ends.Failed };

    fn from(_: Failed) -> LegEnd {
        LegEnd::Failed
    }
}

impl From<AllocError> for LegEnd {
    ghost use Rattle.image_faults.specs.declared.legs.LegEnd.TheVariants as ends;

    ghost from_gives = { λ fault e. e ≡ ends.Memory fault };

    fn from(fault: AllocError) -> LegEnd {
        LegEnd::Memory(fault)
    }
}

/// What was read of a leg without a fault.
#[derive(Drop)]
pub struct LegImage {
    pub superblock: Super,
    /// The checksum of its superblock.
    pub sum: u32,
    /// The sizes by this leg's own superblock.
    pub geometry: Geometry,
    /// The chunks that each slot marks.
    pub slots: Vec<ChunkSet>,
}

// The first page of slot `k`. That of slot 0 was read before.
fn first_of_slot<L: LegDev>(
    leg: &mut L,
    g: &Geometry,
    k: NodeId,
    first: &Sector,
) -> Result<Sector, Failed>
    requires slot { k < nodes_of g.now }
    requires size { data_offset g.now ≤ L.size leg.old }
    requires first { Gives (L.contents leg.old) (page_sector g.now 0 0) first.now }
    ensures value { IfOk result (λ v. Gives (L.contents leg.old) (page_sector g.now k 0) v) }
    ensures contents { L.contents leg.new ≡ L.contents leg.old }
    ensures size { L.size leg.new ≡ L.size leg.old }
    ensures cause { HasCause (λ e. true) (L.faults leg.old) (L.faults leg.new) result }
{
    if k == 0 {
        Ok(*first)
    } else {
        leg.read(g.page_sector(k, 0))
    }
}

// One slot: its chunks, where its pages are as they have to be.
fn one_slot<L: LegDev>(
    alloc: Global,
    leg: &mut L,
    g: &Geometry,
    uuid: &[u8; 16],
    k: NodeId,
    first: &Sector,
) -> Result<ChunkSet, LegEnd>
    requires slot { k < nodes_of g.now }
    requires size { data_offset g.now ≤ L.size leg.old }
    requires first { Gives (L.contents leg.old) (page_sector g.now 0 0) first.now }
    ensures judged { ReadsSlot (L.contents leg.old) g.now uuid.now k result }
    ensures sectors { IfOk result (λ _. ArePages (L.contents leg.old) g.now k (slot_pages g.now)) }
    ensures chunks { IfOk result (λ set. length set ≡ chunks_of g.now) }
    ensures contents { L.contents leg.new ≡ L.contents leg.old }
    ensures size { L.size leg.new ≡ L.size leg.old }
    ensures cause { HasCause is_leg_failure (L.faults leg.old) (L.faults leg.new) result }
{
    let page = first_of_slot(leg, g, k, first)?;
    let mut set = ChunkSet::new(alloc, g.chunks())?;
    if read_slot(leg, g, uuid, k, &page, &mut set)? {
        Ok(set)
    } else {
        Err(LegEnd::Fault(ImageFault::Slot(k)))
    }
}

fn add_slot(slots: &mut Vec<ChunkSet>, set: ChunkSet) -> Result<(), AllocError>
    ensures { OnOk result (slots.new.items ≡ slots.old.items ++ set ∷ []) }
{
    slots.push(set)?;
    Ok(())
}

// The chunk of the array. That of leg 0 is its own.
fn own_chunk(chunk: Option<u32>, first: &Sector) -> u32
    ensures { result ≡ own_chunk chunk first.now.bytes }
{
    match chunk {
        Some(chunk) => chunk,
        None => chunk_in(first),
    }
}

// All slots.
fn read_slots<L: LegDev>(
    alloc: Global,
    leg: &mut L,
    g: &Geometry,
    uuid: &[u8; 16],
    first: &Sector,
) -> Result<Vec<ChunkSet>, LegEnd>
    requires size { data_offset g.now ≤ L.size leg.old }
    requires first { Gives (L.contents leg.old) (page_sector g.now 0 0) first.now }
    ensures judged { ReadsSlots (L.contents leg.old) g.now uuid.now
        (result_map_both (λ v. v.items) (λ e. e) result) }
    ensures pages { IfOk result (λ _. AllPages (L.contents leg.old) g.now) }
    ensures sets { IfOk result (λ slots. HaveSets g.now slots.items) }
    ensures contents { L.contents leg.new ≡ L.contents leg.old }
    ensures size { L.size leg.new ≡ L.size leg.old }
    ensures cause { HasCause is_leg_failure (L.faults leg.old) (L.faults leg.new) result }
{
    let mut slots = Vec::with_capacity(alloc, usize::from(g.nodes()))?;
    for k in 0..g.nodes() {
        match one_slot(alloc, leg, g, uuid, k, first) {
            Ok(set) => add_slot(&mut slots, set)?,
            Err(end) => return Err(end),
        }
    }
    Ok(slots)
}

/// Reads the superblock and the slots of a leg whose file has `size` bytes, each sector once. The chunk
/// is that of the array; of leg 0, which has it, it isn't given. The first fault is told.
pub fn read_leg<L: LegDev>(
    alloc: Global,
    leg: &mut L,
    size: u64,
    chunk: Option<u32>,
) -> Result<LegImage, LegEnd>
    requires least { 40960 ≤ size }
    requires size { L.size leg.old ≡ min (size / 512) (2 ^ 32 - 1) }
    ensures judged { ReadsLeg (L.contents leg.old) chunk size result }
    ensures pages { IfOk result (λ image. AllPages (L.contents leg.old) image.geometry) }
    ensures fits { IfOk result (λ image. FitsSuper chunk size image) }
    ensures contents { L.contents leg.new ≡ L.contents leg.old }
    ensures size { L.size leg.new ≡ L.size leg.old }
    ensures cause { HasCause is_leg_failure (L.faults leg.old) (L.faults leg.new) result }
{
    let block = leg.read(SUPERBLOCK)?;
    let superblock = match read_super(&block) {
        Ok(superblock) => superblock,
        Err(fault) => return Err(LegEnd::Fault(ImageFault::Super(fault))),
    };
    if let Some(fault) = length_fault(&superblock, size) {
        return Err(LegEnd::Fault(fault));
    }
    let first = leg.read(FIRST_PAGE)?;
    let geometry = match sizes_of(&superblock, own_chunk(chunk, &first)) {
        Ok(geometry) => geometry,
        Err(_) => return Err(LegEnd::Fault(ImageFault::Slot(0))),
    };
    match read_slots(alloc, leg, &geometry, &superblock.uuid, &first) {
        Ok(slots) => Ok(LegImage {
            superblock,
            sum: sum_of(&block),
            geometry,
            slots,
        }),
        Err(end) => Err(end),
    }
}
