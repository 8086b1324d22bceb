ghost use Rattle.std.specs.Prelude.{◌≡◌, ◌<◌, ◌&&◌, length};
ghost use Rattle.image_array.specs.Agreement.{agreement_fault, agrees_below, contradicts, is_of_array, same_role_at, same_roles};
ghost use Rattle.image_array.specs.Legs.{super_at, supers_with};

use crate::lookups::superblock;
use image_faults::{ImageFault, LegImage};
use md_superblock::Super;
use mdc_types::{LegId, Roles};

fn same_role_at(a: &Roles, b: &Roles, l: LegId) -> bool
    requires { l < 8 }
    ensures { result ≡ same_role_at a.now b.now l }
{
    a.of(l) == b.of(l)
}

fn same_roles(a: &Roles, b: &Roles) -> bool
    ensures { result ≡ same_roles a.now b.now }
{
    for l in 0..8 {
        if !same_role_at(a, b, l) {
            return false;
        }
    }
    true
}

// Whether a superblock says other roles or another size than another one of the same events number.
fn contradicts(s: &Super, other: &Super) -> bool
    ensures { result ≡ contradicts s.now other.now }
{
    s.events == other.events && !(s.sectors == other.sectors && same_roles(&s.roles, &other.roles))
}

// Whether it says other things than leg `k`.
fn contradicts_leg(images: &[LegImage], s: &Super, k: usize) -> bool
    requires { k < length images.now }
    ensures { result ≡ contradicts s.now (super_at images.now k) }
{
    contradicts(s, superblock(images, k))
}

// Whether none of the legs says other things of the same events number.
fn agrees(images: &[LegImage], s: &Super) -> bool
    ensures { result ≡ agrees_below (super_at images.now) (length images.now) s.now }
{
    for k in 0..images.len() {
        if contradicts_leg(images, s, k) {
            return false;
        }
    }
    true
}

// Whether a superblock is one of the array of another, as device `l`.
fn is_of_array(first: &Super, l: usize, s: &Super) -> bool
    ensures { result ≡ is_of_array first.now l s.now }
{
    s.geometry_legs == first.geometry_legs
        && s.room == first.room
        && s.version == first.version
        && s.name == first.name
        && s.uuid == first.uuid
        && usize::from(s.device) == l
}

// The superblock of leg 0, which is that of the next leg itself where there is none yet.
#[tactic(auto, using(crate::proofs::NextLegs::first_none, crate::proofs::NextLegs::first_some))]
fn first_super<'a>(images: &'a [LegImage], s: &'a Super) -> &'a Super
    ensures { result.now ≡ supers_with images.now s.now 0 }
{
    if images.is_empty() {
        s
    } else {
        superblock(images, 0)
    }
}

// Whether the next leg goes with those before it.
#[tactic(auto, using(crate::proofs::NextLegs::agrees_with))]
fn goes_with(images: &[LegImage], s: &Super) -> bool
    ensures { let all = supers_with images.now s.now in
        result ≡ (is_of_array (all 0) (length images.now) s.now
        && agrees_below all (length images.now) s.now) }
{
    is_of_array(first_super(images, s), images.len(), s) && agrees(images, s)
}

/// The fault of the next leg against those before it: `Geometry` where it is of another array or
/// another leg's, or says other roles or another size at the same events number.
#[tactic(auto, using(crate::proofs::NextLegs::fault_is))]
pub(crate) fn agreement_fault(images: &[LegImage], s: &Super) -> Option<ImageFault>
    ensures { result ≡ agreement_fault (supers_with images.now s.now) (length images.now) }
{
    if goes_with(images, s) {
        None
    } else {
        Some(ImageFault::Geometry)
    }
}
