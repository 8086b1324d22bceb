ghost use Rattle.std.specs.Prelude.{◌≡◌, ◌<◌, ◌≤◌, None, Some, length, map, get_or, IfErr, IfOk, MatchResult, string_bytes};
ghost use Rattle.mdc_types.specs.Faults.{HasCause};
ghost use Rattle.mdc_types.specs.Geometry.{length_of};
ghost use Rattle.leg_shelf.specs.Shelves.{OthersStay, put_file};
ghost use Rattle.image_texts.specs.Lines.{upgraded_text};
ghost use Rattle.disk_image.specs.Files.{leg_name};
ghost use Rattle.image_second.specs.Second.{IsReadable, read_of};
ghost use Rattle.image_upgrade.specs.Ends.{HasFailed, IsNewEnd, IsPutEnd, IsStoreEnd, LegFailed, is_shelf_fault};
ghost use Rattle.image_upgrade.specs.Stored.{AreReadable, AreStored, OneStored, StoredSome, read_at};

use crate::ends::{UpgradeError, made_error};
use disk_image::leg_name;
use image_faults::{ImageError, LegImage};
use image_second::second_image;
use image_texts::upgraded_text;
use leg_shelf::{Shelf, ShelfEnd};
use leg_store::LegDev;
use mdc_types::LegId;
use std::alloc::Global;

// The name of leg `l`'s file of the new array, and its image.
fn store_bytes<H: Shelf>(
    alloc: Global,
    shelf: &mut H,
    to: &str,
    l: LegId,
    bytes: &[u8],
) -> Result<(), UpgradeError>
    requires leg { l < 8 }
    ensures contents { MatchResult result
        (λ _. H.contents shelf.new ≡ put_file (H.contents shelf.old) (leg_name to.now l) (Some bytes.now))
        (λ _. OthersStay (H.contents shelf.old) (leg_name to.now l) (H.contents shelf.new)) }
    ensures end { IfErr result (IsPutEnd l) }
    ensures legs { H.leg_faults shelf.new ≡ H.leg_faults shelf.old }
    ensures cause { HasCause is_shelf_fault (H.faults shelf.old) (H.faults shelf.new) result }
{
    let file = leg_name(alloc, to, l)?;
    match shelf.store(file.as_str(), bytes) {
        Ok(()) => Ok(()),
        Err(ShelfEnd::Failed) => Err(UpgradeError::New(l)),
        Err(ShelfEnd::Memory(fault)) => Err(UpgradeError::Old(ImageError::Memory(fault))),
    }
}

// Makes the new image of leg `l`, and stores it.
fn store_leg<H: Shelf>(
    alloc: Global,
    shelf: &mut H,
    to: &str,
    l: LegId,
    image: &LegImage,
    leg: &mut H::Leg,
) -> Result<(), UpgradeError>
    requires number { l < 8 }
    requires image { IsReadable (read_of image.now) }
    requires long { H.Leg.size leg.old ≡ length_of image.now.geometry }
    ensures contents { OneStored (H.contents shelf.old) (leg_name to.now l) (read_of image.now)
        (H.Leg.contents leg.old) result (H.contents shelf.new) }
    ensures end { IfErr result (IsStoreEnd l) }
    ensures failed { IfErr result (LegFailed (H.Leg.faults leg.new)) }
    ensures told { H.Leg.contents leg.new ≡ H.Leg.contents leg.old }
    ensures size { H.Leg.size leg.new ≡ H.Leg.size leg.old }
    ensures legs { H.leg_faults shelf.new ≡ H.leg_faults shelf.old }
    ensures cause { HasCause is_shelf_fault (H.faults shelf.old) (H.faults shelf.new) result }
{
    match second_image(alloc, image, leg) {
        Ok(bytes) => store_bytes(alloc, shelf, to, l, &bytes),
        Err(end) => Err(UpgradeError::Old(made_error(l, end))),
    }
}

// The new image of leg `l` among all.
fn store_at<H: Shelf>(
    alloc: Global,
    shelf: &mut H,
    to: &str,
    l: LegId,
    images: &[LegImage],
    legs: &mut Vec<H::Leg>,
) -> Result<(), UpgradeError>
    requires there { l < length images.now }
    requires few { length images.now ≤ 8 }
    requires many { length legs.old.items ≡ length images.now }
    requires readable { AreReadable images.now (map H.Leg.size legs.old.items) }
    ensures contents { OneStored (H.contents shelf.old) (leg_name to.now l) (read_at images.now l)
        (get_or (map H.Leg.contents legs.old.items) l None) result (H.contents shelf.new) }
    ensures end { IfErr result (IsStoreEnd l) }
    ensures failed { IfErr result (HasFailed (map H.Leg.faults legs.new.items)) }
    ensures told { map H.Leg.contents legs.new.items ≡ map H.Leg.contents legs.old.items }
    ensures size { map H.Leg.size legs.new.items ≡ map H.Leg.size legs.old.items }
    ensures legs { H.leg_faults shelf.new ≡ H.leg_faults shelf.old }
    ensures cause { HasCause is_shelf_fault (H.faults shelf.old) (H.faults shelf.new) result }
{
    let image = &images[usize::from(l)];
    let leg = &mut legs[usize::from(l)];
    store_leg(alloc, shelf, to, l, image, leg)
}

/// Makes the text of an upgrade, and then makes and stores the new images of all legs under the new
/// name.
///
/// `New` only where the shelf's count of faults rose, `Old` with `Device` only where that leg's count
/// is above 0, else `Old` with `Memory`. The new images of lower legs are then stored.
pub(crate) fn store_all<H: Shelf>(
    alloc: Global,
    shelf: &mut H,
    to: &str,
    images: &[LegImage],
    legs: &mut Vec<H::Leg>,
) -> Result<String, UpgradeError>
    requires few { length images.now ≤ 8 }
    requires many { length legs.old.items ≡ length images.now }
    requires readable { AreReadable images.now (map H.Leg.size legs.old.items) }
    ensures text { IfOk result (λ text. string_bytes text ≡ upgraded_text to.now (length images.now)) }
    ensures contents { StoredSome to.now images.now (map H.Leg.contents legs.old.items)
        (H.contents shelf.old) result (H.contents shelf.new) }
    ensures end { IfErr result IsNewEnd }
    ensures failed { IfErr result (HasFailed (map H.Leg.faults legs.new.items)) }
    ensures told { map H.Leg.contents legs.new.items ≡ map H.Leg.contents legs.old.items }
    ensures size { map H.Leg.size legs.new.items ≡ map H.Leg.size legs.old.items }
    ensures legs { H.leg_faults shelf.new ≡ H.leg_faults shelf.old }
    ensures cause { HasCause is_shelf_fault (H.faults shelf.old) (H.faults shelf.new) result }
{
    let count = images.len() as u8;
    let text = upgraded_text(alloc, to, count)?;
    for l in 0..count {
        store_at(alloc, shelf, to, l, images, legs)?;
    }
    Ok(text)
}
