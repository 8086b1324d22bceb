ghost use Rattle.std.specs.Prelude.{◌≡◌, ◌<◌, ◌^◌, ◌&&◌, ℕ, nat_lt, List, length};
ghost use Rattle.mdc_types.specs.Bits.{has_bit};
ghost use Rattle.mdc_types.specs.Geometry.{length_of, nodes_of};
ghost use Rattle.mdc_types.specs.declared.numbers.Sector.{Sector};
ghost use Rattle.cluster_model.specs.Opening.{IsOrigin};
ghost use Rattle.image_array.specs.Legs.{AreAll, AreLegs, sizes_at, super_at};
ghost use Rattle.image_array.specs.Heads.{AreWithin, IsNewest, IsHead, is_pending, origin_of};

use crate::lookups::{geometry, superblock};
use crate::marks::pending_slots;
use image_faults::LegImage;
use md_superblock::Super;
use mdc_types::{Geometry, Role, Roles};

/// What the superblocks and the slots of all legs say of an array.
#[derive(Drop)]
pub struct Head {
    pub geometry: Geometry,
    pub name: [u8; 32],
    pub uuid: [u8; 16],
    pub roles: Roles,
    /// The greatest events number.
    pub events: u64,
    /// The slots that mark a chunk on a leg that works, one bit each.
    pub pending: u16,
}

// Whether leg `l` has a greater events number than another leg.
fn is_newer(images: &[LegImage], than: usize, l: usize) -> bool
    requires leg { l < length images.now }
    requires other { than < length images.now }
    ensures { result ≡ nat_lt (super_at images.now than).events (super_at images.now l).events }
{
    superblock(images, than).events < superblock(images, l).events
}

// The leg with the greatest events number, of several the least.
pub(crate) fn newest(images: &[LegImage]) -> usize
    requires { 0 < length images.now }
    ensures { IsNewest images.now result }
{
    let mut newest = 0;
    for l in 1..images.len() {
        if is_newer(images, newest, l) {
            newest = l;
        }
    }
    newest
}

fn name_length(name: &[u8; 32]) -> usize
    ensures { length name.now ≡ 32 }
{
    name.len()
}

fn uuid_length(uuid: &[u8; 16]) -> usize
    ensures { length uuid.now ≡ 16 }
{
    uuid.len()
}

fn roles_length(roles: &[Role; 8]) -> usize
    ensures { length roles.now ≡ 8 }
{
    roles.len()
}

// The lengths of what a superblock holds.
fn has_lengths(s: &Super)
    ensures name { length s.now.name ≡ 32 }
    ensures uuid { length s.now.uuid ≡ 16 }
    ensures roles { length s.now.roles.legs ≡ 8 }
{
    name_length(&s.name);
    uuid_length(&s.uuid);
    roles_length(&s.roles.legs);
}

// The head by the superblock and the sizes of the newest leg.
fn head_by(images: &[LegImage], s: &Super, geometry: Geometry) -> Head
    requires legs { AreLegs images.now }
    requires within { AreWithin images.now s.now.roles }
    requires slots { (l : ℕ) → l < length images.now
        → nodes_of (sizes_at images.now l) ≡ nodes_of geometry }
    ensures sizes { result.geometry ≡ geometry }
    ensures name { result.name ≡ s.now.name }
    ensures uuid { result.uuid ≡ s.now.uuid }
    ensures roles { result.roles ≡ s.now.roles }
    ensures events { result.events ≡ s.now.events }
    ensures pending { (k : ℕ) → has_bit result.pending k
        ≡ (nat_lt k (nodes_of geometry) && is_pending images.now s.now.roles k) }
    ensures range { result.pending < 2 ^ nodes_of geometry }
{
    Head {
        geometry,
        name: s.name,
        uuid: s.uuid,
        roles: s.roles,
        events: s.events,
        pending: pending_slots(images, &s.roles, geometry.nodes()),
    }
}

/// What all legs say of the array: the name, the uuid and the sizes; by the superblock of the greatest
/// events number, of several the one on the least leg, the roles and the size; and the pending slots.
pub fn head_of(images: &[LegImage]) -> Head
    requires { AreAll images.now }
    ensures head { IsHead images.now result }
    ensures origin { (base : List (List Sector)) → IsOrigin (origin_of result base) }
    ensures legs { result.geometry.legs ≡ length images.now }
    ensures long { (l : ℕ) → l < length images.now
        → length_of (sizes_at images.now l) ≡ length_of result.geometry }
{
    let l = newest(images);
    let superblock = superblock(images, l);
    let geometry = geometry(images, l);
    has_lengths(superblock);
    // The room is what tells that the sizes are within their bounds.
    let _room = geometry.room();
    head_by(images, superblock, geometry)
}
