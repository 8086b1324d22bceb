ghost use Rattle.std.specs.Prelude.{◌≡◌, ◌<◌, ◌≤◌, ◌^◌, ◌&&◌, ℕ, nat_lt, length};
ghost use Rattle.mdc_types.specs.Bits.{has_bit};
ghost use Rattle.mdc_types.specs.Geometry.{nodes_of, chunks_of};
ghost use Rattle.image_array.specs.Legs.{mark_at, sizes_at, AreLegs};
ghost use Rattle.image_array.specs.Heads.{works, has_marks, is_pending, AreWithin};
ghost use Rattle.image_array.specs.Values.{marks_on, is_marked};

use crate::lookups::{geometry, slot};
use image_faults::LegImage;
use mdc_types::{ChunkNo, LegId, NodeId, Role, Roles, with_node};

/// Whether the leg works.
pub(crate) fn works(roles: &Roles, l: LegId) -> bool
    requires { l < 8 }
    ensures { result ≡ works roles.now l }
{
    matches!(roles.of(l), Role::Working)
}

// Whether slot `k` marks some chunk on a leg.
fn has_marks(images: &[LegImage], k: NodeId, l: LegId) -> bool
    requires legs { AreLegs images.now }
    requires leg { l < length images.now }
    requires slot { k < nodes_of (sizes_at images.now l) }
    ensures { result ≡ has_marks images.now k l }
{
    slot(images, l as usize, k as usize).first_from(0).is_some()
}

// Whether leg `l` works, and slot `k` marks some chunk on it.
fn is_pending_on(images: &[LegImage], roles: &Roles, k: NodeId, l: LegId) -> bool
    requires legs { AreLegs images.now }
    requires within { AreWithin images.now roles.now }
    requires leg { l < 8 }
    requires slot { (l : ℕ) → l < length images.now → k < nodes_of (sizes_at images.now l) }
    ensures { result ≡ (works roles.now l && has_marks images.now k l) }
{
    works(roles, l) && has_marks(images, k, l)
}

// Whether slot `k` marks some chunk on a leg that works.
fn is_pending(images: &[LegImage], roles: &Roles, k: NodeId) -> bool
    requires legs { AreLegs images.now }
    requires within { AreWithin images.now roles.now }
    requires slot { (l : ℕ) → l < length images.now → k < nodes_of (sizes_at images.now l) }
    ensures { result ≡ is_pending images.now roles.now k }
{
    for l in 0..8 {
        if is_pending_on(images, roles, k, l) {
            return true;
        }
    }
    false
}

/// The slots below `nodes` that mark some chunk on a leg that works, one bit each.
pub(crate) fn pending_slots(images: &[LegImage], roles: &Roles, nodes: NodeId) -> u16
    requires most { nodes ≤ 16 }
    requires legs { AreLegs images.now }
    requires within { AreWithin images.now roles.now }
    requires slots { (l : ℕ) → l < length images.now → nodes_of (sizes_at images.now l) ≡ nodes }
    ensures slots { (k : ℕ) → has_bit result k ≡ (nat_lt k nodes && is_pending images.now roles.now k) }
    ensures range { result < 2 ^ nodes }
{
    let mut slots = 0;
    for k in 0..nodes {
        if is_pending(images, roles, k) {
            slots = with_node(slots, k);
        }
    }
    slots
}

// Whether slot `k` marks chunk `c` on a leg.
fn marks_in(images: &[LegImage], c: ChunkNo, l: LegId, k: NodeId) -> bool
    requires legs { AreLegs images.now }
    requires leg { l < length images.now }
    requires chunk { c < chunks_of (sizes_at images.now l) }
    requires slot { k < nodes_of (sizes_at images.now l) }
    ensures { result ≡ mark_at images.now l k c }
{
    slot(images, l as usize, k as usize).has(c)
}

// The number of slots of a leg.
fn slots_on(images: &[LegImage], l: LegId) -> NodeId
    requires { l < length images.now }
    ensures { result ≡ nodes_of (sizes_at images.now l) }
{
    geometry(images, l as usize).nodes()
}

// Whether some slot marks chunk `c` on a leg.
fn marks_on(images: &[LegImage], c: ChunkNo, l: LegId) -> bool
    requires legs { AreLegs images.now }
    requires leg { l < length images.now }
    requires chunk { c < chunks_of (sizes_at images.now l) }
    ensures { result ≡ marks_on images.now c l }
{
    for k in 0..slots_on(images, l) {
        if marks_in(images, c, l, k) {
            return true;
        }
    }
    false
}

// Whether leg `l` works, and some slot marks chunk `c` on it.
fn is_marked_on(images: &[LegImage], roles: &Roles, c: ChunkNo, l: LegId) -> bool
    requires legs { AreLegs images.now }
    requires within { AreWithin images.now roles.now }
    requires leg { l < 8 }
    requires chunk { (l : ℕ) → l < length images.now → c < chunks_of (sizes_at images.now l) }
    ensures { result ≡ (works roles.now l && marks_on images.now c l) }
{
    works(roles, l) && marks_on(images, c, l)
}

/// Whether some slot marks chunk `c` on a leg that works.
pub(crate) fn is_marked(images: &[LegImage], roles: &Roles, c: ChunkNo) -> bool
    requires legs { AreLegs images.now }
    requires within { AreWithin images.now roles.now }
    requires chunk { (l : ℕ) → l < length images.now → c < chunks_of (sizes_at images.now l) }
    ensures { result ≡ is_marked images.now roles.now c }
{
    for l in 0..8 {
        if is_marked_on(images, roles, c, l) {
            return true;
        }
    }
    false
}
