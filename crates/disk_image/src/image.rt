ghost use Rattle.std.specs.Prelude.{◌≡◌, ◌<◌, ◌≤◌, false, replicate, map, IfOk};
ghost use Rattle.mdc_types.specs.Geometry.{chunks_of, data_offset, length_of, nodes_of, slot_pages};
ghost use Rattle.mdc_types.specs.Roles.{eight};
ghost use Rattle.md_superblock.specs.Arrays.{array_of, spelled, super_for};
ghost use Rattle.slot_pages.specs.Slot.{spelled_page};
ghost use Rattle.cluster_model.specs.Opening.{says_of, IsOrigin};
ghost use Rattle.cluster_model.specs.Contents.{header_sector, slot_sector};
ghost use Rattle.disk_image.specs.Created.{created_at, image_of, new_role};

use md_superblock::{ArrayState, Identity};
use mdc_types::{ChunkNo, LegId, PageNo, Role, Roles, Sector};
use slot_pages::{Flags, page_of_flags};
use std::alloc::{AllocError, Global};

const SUPERBLOCK: u32 = 8;

const SLOTS: u32 = 16;

// No chunk of an array of so many.
#[derive(Clone, Copy)]
struct NoChunks {
    chunks: u32,
}

impl Flags for NoChunks {
    ghost flags = { λ f. replicate f.chunks false };

    fn flag(&self, c: ChunkNo) -> bool {
        false
    }
}

fn role_at(legs: u8, l: LegId) -> Role
    ensures { result ≡ new_role legs l }
{
    if l < legs { Role::Working } else { Role::Spare }
}

// All legs of the array work.
fn all_work(legs: u8) -> Roles
    ensures { result ≡ eight (new_role legs) }
{
    Roles {
        legs: [
            role_at(legs, 0),
            role_at(legs, 1),
            role_at(legs, 2),
            role_at(legs, 3),
            role_at(legs, 4),
            role_at(legs, 5),
            role_at(legs, 6),
            role_at(legs, 7),
        ],
    }
}

// The superblock of leg `l`: events number 1, all legs work, and the size is that of the sizes.
fn superblock(array: &Identity, l: LegId) -> Sector
    requires origin { IsOrigin (created_at (array_of array.now)) }
    requires leg { l < array.now.geometry.legs }
    ensures { let a = array_of array.now in
        result.bytes ≡ spelled (super_for a l (says_of (created_at a))) }
{
    let state = ArrayState {
        events: 1,
        roles: all_work(array.geometry.legs()),
        size: array.geometry.sectors(),
    };
    array.write(l, &state)
}

// A page of a slot without a chunk.
fn empty_page(array: &Identity, p: PageNo) -> Sector
    requires { p < slot_pages array.now.geometry }
    ensures { let a = array_of array.now in
        result.bytes ≡ spelled_page a.sizes a.uuid p (λ c. false) }
{
    let set = NoChunks {
        chunks: array.geometry.chunks(),
    };
    page_of_flags(&array.geometry, &array.uuid, p, &set)
}

// What leg `l` has at a sector.
fn image_sector(array: &Identity, l: LegId, at: u32) -> Sector
    requires origin { IsOrigin (created_at (array_of array.now)) }
    requires leg { l < array.now.geometry.legs }
    ensures { result ≡ header_sector (created_at (array_of array.now)) l at }
{
    if at == SUPERBLOCK {
        superblock(array, l)
    } else if at >= SLOTS && at < array.geometry.data_offset() {
        empty_page(array, (at - SLOTS) % array.geometry.slot_pages())
    } else {
        Sector::ZERO
    }
}

/// The bytes of leg `l` of a new array.
pub(crate) fn image_of(alloc: Global, array: &Identity, l: LegId) -> Result<Vec<u8>, AllocError>
    requires origin { IsOrigin (created_at (array_of array.now)) }
    requires leg { l < array.now.geometry.legs }
    ensures { IfOk result (λ bytes. bytes.items ≡ image_of (created_at (array_of array.now)) l) }
{
    let length = array.geometry.length();
    let mut bytes = Vec::with_capacity(alloc, 512 * length as usize)?;
    for at in 0..length {
        bytes.extend_from_slice(&image_sector(array, l, at).bytes)?;
    }
    Ok(bytes)
}
