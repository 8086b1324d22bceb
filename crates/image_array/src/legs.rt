ghost use Rattle.std.specs.Prelude.{◌≡◌, ◌<◌, ◌≤◌, ◌/◌, ◌-◌, ◌^◌, ◌++◌, ◌∷◌, [], length, min, None, OnOk, OnErr};
ghost use Rattle.mdc_types.specs.Faults.{HasCause};
ghost use Rattle.image_faults.specs.Legs.{is_leg_failure};
ghost use Rattle.image_faults.specs.Sizes.{length_fault};
ghost use Rattle.image_array.specs.Legs.{leg_chunk, super_at, AreLegs, AddsLeg, ReadAs, ReadsNext};

use crate::agreement::agreement_fault;
use crate::lookups::{geometry, superblock};
use image_faults::{LegEnd, LegImage, read_leg};
use leg_store::LegDev;
use std::alloc::{AllocError, Global};

// The chunk that the next leg has to hold: that of leg 0, which has its own.
#[tactic(auto, using(crate::proofs::NextLegs::given_none, crate::proofs::NextLegs::given_some))]
fn chunk_given(images: &[LegImage]) -> Option<u32>
    ensures { result ≡ leg_chunk images.now (length images.now) }
{
    if images.is_empty() {
        None
    } else {
        Some(geometry(images, 0).chunk())
    }
}

fn add_image(images: &mut Vec<LegImage>, image: LegImage) -> Result<(), AllocError>
    ensures ok { OnOk result (images.new.items ≡ images.old.items ++ image ∷ []) }
    ensures err { OnErr result (images.new.items ≡ images.old.items) }
{
    images.push(image)?;
    Ok(())
}

/// The number of legs of the array, as its first leg says, 2 to 8.
pub fn legs_in(images: &[LegImage]) -> u8
    requires first { 0 < length images.now }
    requires legs { AreLegs images.now }
    ensures value { result ≡ (super_at images.now 0).geometry_legs }
    ensures range { (2 ≤ result) × (result ≤ 8) }
{
    superblock(images, 0).geometry_legs
}

/// Reads the superblock and the slots of the next leg of an array, whose file has `size` bytes, and
/// adds it to the legs before it. It tells the first fault of the leg by itself, and then `Geometry`
/// where the leg doesn't go with those before it; so also where leg 0 isn't device 0.
///
/// `Failed` only where the leg's count of faults rose. Where it isn't Ok, no leg is added.
pub fn read_next<L: LegDev>(
    alloc: Global,
    leg: &mut L,
    size: u64,
    images: &mut Vec<LegImage>,
) -> Result<(), LegEnd>
    requires least { 40960 ≤ size }
    requires size { L.size leg.old ≡ min (size / 512) (2 ^ 32 - 1) }
    requires legs { AreLegs images.old.items }
    ensures judged { ReadsNext (L.contents leg.old) images.old.items size result }
    ensures added { OnOk result (AddsLeg images.old.items images.new.items) }
    ensures read { OnOk result
        (ReadAs (L.contents leg.old) size images.new.items (length images.old.items)) }
    ensures long { OnOk result
        (length_fault (super_at images.new.items (length images.old.items)) size ≡ None) }
    ensures legs { AreLegs images.new.items }
    ensures same { OnErr result (images.new.items ≡ images.old.items) }
    ensures contents { L.contents leg.new ≡ L.contents leg.old }
    ensures size { L.size leg.new ≡ L.size leg.old }
    ensures cause { HasCause is_leg_failure (L.faults leg.old) (L.faults leg.new) result }
{
    let before = images.as_slice();
    let image = match read_leg(alloc, leg, size, chunk_given(before)) {
        Ok(image) => image,
        Err(end) => return Err(end),
    };
    if let Some(fault) = agreement_fault(before, &image.superblock) {
        return Err(LegEnd::Fault(fault));
    }
    add_image(images, image)?;
    Ok(())
}
