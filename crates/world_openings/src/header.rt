ghost use Rattle.std.specs.Prelude.{◌≡◌, ◌<◌, ◌≤◌, ℕ, length, get_or, replicate, IfOk, ◌&&◌};
ghost use Rattle.mdc_types.specs.Bits.{has_bit};
ghost use Rattle.mdc_types.specs.Geometry.{chunks_of, data_offset, length_of, nodes_of, slot_pages};
ghost use Rattle.mdc_types.specs.Sectors.{zero_sector};
ghost use Rattle.md_superblock.specs.Arrays.{spelled, super_for};
ghost use Rattle.slot_pages.specs.Slot.{spelled_page};
ghost use Rattle.cluster_model.specs.Opening.{array_of, opening_set, says_of, IsOrigin};
ghost use Rattle.cluster_model.specs.Contents.{header_sector, slot_sector};

use crate::Opening;
use leg_store::{Left, MemLeg};
use md_superblock::ArrayState;
use mdc_types::{ChunkNo, LegId, NodeId, PageNo, Sector};
use slot_pages::{Flags, page_of_flags};
use std::alloc::{AllocError, Global};

const SUPERBLOCK: u32 = 8;

const SLOTS: u32 = 16;

// All chunks of a slot, or none.
#[derive(Clone, Copy)]
struct AllOrNone {
    chunks: u32,
    all: bool,
}

impl Flags for AllOrNone {
    ghost flags = { λ f. replicate f.chunks f.all };

    fn flag(&self, c: ChunkNo) -> bool {
        self.all
    }
}

fn superblock(opening: &Opening, l: LegId) -> Sector
    requires origin { IsOrigin opening.now }
    requires leg { l < opening.now.sizes.legs }
    ensures { result.bytes ≡ spelled (super_for (array_of opening.now) l (says_of opening.now)) }
{
    let state = ArrayState {
        events: opening.events(),
        roles: opening.roles(),
        size: opening.geometry().sectors(),
    };
    opening.identity().write(l, &state)
}

// The chunks of a member's slot are all set in a warm array, and else none is.
fn slot_set(opening: &Opening, slot: NodeId) -> AllOrNone
    requires { slot < 16 }
    ensures chunks { result.chunks ≡ chunks_of opening.now.sizes }
    ensures all { result.all ≡ (opening.now.warm && has_bit opening.now.members slot) }
{
    AllOrNone {
        chunks: opening.geometry().chunks(),
        all: opening.warm() && opening.is_member(slot),
    }
}

fn slot_page(opening: &Opening, slot: NodeId, p: PageNo) -> Sector
    requires slot { slot < nodes_of opening.now.sizes }
    requires page { p < slot_pages opening.now.sizes }
    ensures { let o = opening.now in
        result.bytes ≡ spelled_page o.sizes o.uuid p (opening_set o slot) }
{
    let set = slot_set(opening, slot);
    page_of_flags(&opening.geometry(), &opening.uuid(), p, &set)
}

fn slot_sector(opening: &Opening, at: u32) -> Sector
    requires from { 16 ≤ at }
    requires below { at < data_offset opening.now.sizes }
    ensures { result ≡ slot_sector opening.now at }
{
    let pages = opening.geometry().slot_pages();
    let place = at - SLOTS;
    slot_page(opening, (place / pages) as u8, place % pages)
}

// What leg `l` has at a sector.
fn header_sector(opening: &Opening, l: LegId, at: u32) -> Sector
    requires origin { IsOrigin opening.now }
    requires leg { l < opening.now.sizes.legs }
    ensures { result ≡ header_sector opening.now l at }
{
    if at == SUPERBLOCK {
        superblock(opening, l)
    } else if at >= SLOTS && at < opening.geometry().data_offset() {
        slot_sector(opening, at)
    } else {
        Sector::ZERO
    }
}

/// Leg `l` of a header in memory: it has its superblock, the slots and zeros. The transfers that
/// `faults` lists fail.
pub fn header_leg(
    alloc: Global,
    opening: &Opening,
    l: LegId,
    faults: Vec<(u32, Left)>,
) -> Result<MemLeg, AllocError>
    requires origin { IsOrigin opening.now }
    requires leg { l < opening.now.sizes.legs }
    ensures faults { IfOk result (λ leg.
        (leg.failing ≡ faults.items) × (leg.transfers ≡ 0) × (leg.faults ≡ 0)) }
    ensures length { IfOk result (λ leg. length leg.sectors ≡ length_of opening.now.sizes) }
    ensures sectors { IfOk result (λ leg. (at : ℕ) → at < length_of opening.now.sizes
        → get_or leg.sectors at zero_sector ≡ header_sector opening.now l at) }
{
    let length = opening.geometry().length();
    let mut sectors = Vec::with_capacity(alloc, length as usize)?;
    for at in 0..length {
        sectors.push(header_sector(opening, l, at))?;
    }
    Ok(MemLeg::new(sectors, faults))
}
