ghost use Rattle.std.specs.Prelude.{◌≡◌, ◌<◌, ◌≤◌, ◌+◌, ◌-◌, ◌/◌, ◌*◌, ◌^◌, length, map, min, None, OnOk, OnErr, IfErr, IfOk};
ghost use Rattle.mdc_types.specs.Faults.{HasCause};
ghost use Rattle.mdc_types.specs.Geometry.{length_of};
ghost use Rattle.image_faults.specs.Legs.{is_leg_failure};
ghost use Rattle.image_files.specs.Closed.{is_shelf_fault};
ghost use Rattle.image_array.specs.Legs.{AddsLeg, AreAll, AreLegs, ReadAs, sizes_at, super_at};
ghost use Rattle.image_opening.specs.Opened.{AreOpened};
ghost use Rattle.image_opening.specs.Faults.{IsNextEnd, IsOpenEnd, LegFailed, TellsNext, leg_error, version_fault};

use crate::Versions;
use crate::versions::version_fault;
use image_array::{legs_in, read_next};
use image_faults::{ImageError, ImageFault, LegEnd, LegImage};
use image_files::{FileNames, OpenFile, open_file};
use leg_shelf::Shelf;
use leg_store::LegDev;
use md_superblock::Super;
use mdc_types::LegId;
use std::alloc::Global;

// Why leg `l`'s image wasn't read.
fn leg_error(l: LegId, end: LegEnd) -> ImageError
    ensures { result ≡ leg_error l end }
{
    match end {
        LegEnd::Fault(fault) => ImageError::Image(l, fault),
        LegEnd::Failed => ImageError::Device(l),
        LegEnd::Memory(fault) => ImageError::Memory(fault),
    }
}

// `Short` or `Long` where a leg hasn't as many sectors as there are whole ones in its file.
fn sectors_fault(sectors: u32, size: u64) -> Option<ImageFault>
    ensures same { result ≡ None → sectors ≡ min (size / 512) (2 ^ 32 - 1) }
    ensures none { sectors ≡ min (size / 512) (2 ^ 32 - 1) → result ≡ None }
{
    let whole = (size / 512).min(u64::from(u32::MAX));
    if u64::from(sectors) < whole {
        Some(ImageFault::Short)
    } else if whole < u64::from(sectors) {
        Some(ImageFault::Long)
    } else {
        None
    }
}

// Reads what stands on the next leg, leg `l`, which has its file's whole sectors.
fn read_image<L: LegDev>(
    alloc: Global,
    leg: &mut L,
    size: u64,
    l: LegId,
    images: &mut Vec<LegImage>,
) -> Result<(), ImageError>
    requires least { 40960 ≤ size }
    requires size { L.size leg.old ≡ min (size / 512) (2 ^ 32 - 1) }
    requires legs { AreLegs images.old.items }
    ensures added { OnOk result (AddsLeg images.old.items images.new.items) }
    ensures read { OnOk result
        (ReadAs (L.contents leg.old) size images.new.items (length images.old.items)) }
    ensures bytes { OnOk result (size ≡ 512 * L.size leg.old) }
    ensures long { OnOk result
        (L.size leg.old ≡ length_of (sizes_at images.new.items (length images.old.items))) }
    ensures legs { OnOk result (AreLegs images.new.items) }
    ensures fault { IfErr result (TellsNext (L.contents leg.old) images.old.items size l) }
    ensures failed { IfErr result (LegFailed (L.faults leg.new)) }
    ensures contents { L.contents leg.new ≡ L.contents leg.old }
    ensures size { L.size leg.new ≡ L.size leg.old }
{
    match read_next(alloc, leg, size, images) {
        Ok(()) => Ok(()),
        Err(end) => Err(leg_error(l, end)),
    }
}

// Reads what stands on the next leg, leg `l`, of a file of so many bytes.
fn read_leg<L: LegDev>(
    alloc: Global,
    leg: &mut L,
    size: u64,
    l: LegId,
    images: &mut Vec<LegImage>,
) -> Result<(), ImageError>
    requires least { 40960 ≤ size }
    requires legs { AreLegs images.old.items }
    ensures added { OnOk result (AddsLeg images.old.items images.new.items) }
    ensures read { OnOk result
        (ReadAs (L.contents leg.old) size images.new.items (length images.old.items)) }
    ensures bytes { OnOk result (size ≡ 512 * L.size leg.old) }
    ensures long { OnOk result
        (L.size leg.old ≡ length_of (sizes_at images.new.items (length images.old.items))) }
    ensures legs { OnOk result (AreLegs images.new.items) }
    ensures fault { IfErr result (TellsNext (L.contents leg.old) images.old.items size l) }
    ensures failed { IfErr result (LegFailed (L.faults leg.new)) }
    ensures contents { L.contents leg.new ≡ L.contents leg.old }
    ensures size { L.size leg.new ≡ L.size leg.old }
{
    match sectors_fault(leg.length(), size) {
        Some(fault) => Err(ImageError::Image(l, fault)),
        None => read_image(alloc, leg, size, l, images),
    }
}

// Opens the file of the next leg, leg `l`, and reads it. The leg is among the legs then, also where it
// has a fault.
fn open_next<H: Shelf>(
    alloc: Global,
    shelf: &mut H,
    names: &FileNames,
    l: LegId,
    legs: &mut Vec<H::Leg>,
    images: &mut Vec<LegImage>,
) -> Result<(), ImageError>
    requires number { length images.old.items ≡ l }
    requires opened { AreOpened (H.contents shelf.old) names.now images.old.items
        (map H.Leg.contents legs.old.items) (map H.Leg.size legs.old.items) }
    ensures opened { OnOk result (AreOpened (H.contents shelf.old) names.now images.new.items
        (map H.Leg.contents legs.new.items) (map H.Leg.size legs.new.items)) }
    ensures added { OnOk result (AddsLeg images.old.items images.new.items) }
    ensures many { length legs.new.items ≤ l + 1 }
    ensures end { IfErr result (IsNextEnd (H.contents shelf.old) names.now images.old.items l
        (map H.Leg.faults legs.new.items)) }
    ensures contents { H.contents shelf.new ≡ H.contents shelf.old }
    ensures legs { H.leg_faults shelf.new ≡ H.leg_faults shelf.old }
    ensures cause { HasCause is_shelf_fault (H.faults shelf.old) (H.faults shelf.new) result }
{
    legs.reserve(1)?;
    let OpenFile { mut leg, size } = open_file(shelf, names, l)?;
    let judged = read_leg(alloc, &mut leg, size, l, images);
    legs.push_reserved(leg);
    judged
}

fn superblock(images: &[LegImage], l: usize) -> &Super
    requires { l < length images.now }
    ensures { result.now ≡ super_at images.now l }
{
    &images[l].superblock
}

// Opens and reads leg 0, whose version has to be taken.
fn open_first<H: Shelf>(
    alloc: Global,
    shelf: &mut H,
    names: &FileNames,
    versions: Versions,
    legs: &mut Vec<H::Leg>,
    images: &mut Vec<LegImage>,
) -> Result<(), ImageError>
    requires number { length images.old.items ≡ 0 }
    requires opened { AreOpened (H.contents shelf.old) names.now images.old.items
        (map H.Leg.contents legs.old.items) (map H.Leg.size legs.old.items) }
    ensures opened { OnOk result (AreOpened (H.contents shelf.old) names.now images.new.items
        (map H.Leg.contents legs.new.items) (map H.Leg.size legs.new.items)) }
    ensures one { OnOk result (length images.new.items ≡ 1) }
    ensures version { OnOk result (version_fault versions (super_at images.new.items 0) ≡ None) }
    ensures many { length legs.new.items ≤ 1 }
    ensures end { IfErr result (IsOpenEnd (H.contents shelf.old) names.now versions
        (map H.Leg.faults legs.new.items)) }
    ensures contents { H.contents shelf.new ≡ H.contents shelf.old }
    ensures legs { H.leg_faults shelf.new ≡ H.leg_faults shelf.old }
    ensures cause { HasCause is_shelf_fault (H.faults shelf.old) (H.faults shelf.new) result }
{
    open_next(alloc, shelf, names, 0, legs, images)?;
    match version_fault(versions, superblock(images, 0)) {
        Some(fault) => Err(ImageError::Image(0, fault)),
        None => Ok(()),
    }
}

/// Opens and reads all legs in their order. Those that were opened are among the legs then, also
/// where it isn't Ok.
pub(crate) fn open_legs<H: Shelf>(
    alloc: Global,
    shelf: &mut H,
    names: &FileNames,
    versions: Versions,
    legs: &mut Vec<H::Leg>,
    images: &mut Vec<LegImage>,
) -> Result<(), ImageError>
    requires number { length images.old.items ≡ 0 }
    requires opened { AreOpened (H.contents shelf.old) names.now images.old.items
        (map H.Leg.contents legs.old.items) (map H.Leg.size legs.old.items) }
    ensures opened { OnOk result (AreOpened (H.contents shelf.old) names.now images.new.items
        (map H.Leg.contents legs.new.items) (map H.Leg.size legs.new.items)) }
    ensures all { OnOk result (AreAll images.new.items) }
    ensures version { OnOk result (version_fault versions (super_at images.new.items 0) ≡ None) }
    ensures many { length legs.new.items ≤ 8 }
    ensures end { IfErr result (IsOpenEnd (H.contents shelf.old) names.now versions
        (map H.Leg.faults legs.new.items)) }
    ensures contents { H.contents shelf.new ≡ H.contents shelf.old }
    ensures legs { H.leg_faults shelf.new ≡ H.leg_faults shelf.old }
    ensures cause { HasCause is_shelf_fault (H.faults shelf.old) (H.faults shelf.new) result }
{
    open_first(alloc, shelf, names, versions, legs, images)?;
    for l in 1..legs_in(images) {
        open_next(alloc, shelf, names, l, legs, images)?;
    }
    Ok(())
}
