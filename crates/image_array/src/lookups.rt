ghost use Rattle.std.specs.Prelude.{◌≡◌, ◌<◌, [], length, get_or};
ghost use Rattle.image_array.specs.Legs.{super_at, sizes_at, slots_at};

use image_faults::LegImage;
use md_superblock::Super;
use mdc_types::{ChunkSet, Geometry};

/// The superblock of a leg.
#[tactic(auto, using(crate::proofs::Fields::super_is))]
pub(crate) fn superblock(images: &[LegImage], l: usize) -> &Super
    requires { l < length images.now }
    ensures { result.now ≡ super_at images.now l }
{
    &images[l].superblock
}

/// The sizes of a leg.
#[tactic(auto, using(crate::proofs::Fields::sizes_is))]
pub(crate) fn geometry(images: &[LegImage], l: usize) -> Geometry
    requires { l < length images.now }
    ensures { result ≡ sizes_at images.now l }
{
    images[l].geometry
}

/// The chunks of slot `k` of a leg.
#[tactic(auto, using(crate::proofs::Fields::slots_is))]
pub(crate) fn slot(images: &[LegImage], l: usize, k: usize) -> &ChunkSet
    requires leg { l < length images.now }
    requires slot { k < length (slots_at images.now l) }
    ensures { result.now ≡ get_or (slots_at images.now l) k [] }
{
    &images[l].slots[k]
}
