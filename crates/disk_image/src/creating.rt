ghost use Rattle.std.specs.Prelude.{◌≡◌, ◌<◌, ◌≤◌, length, true, Some, MatchResult};
ghost use Rattle.mdc_types.specs.Faults.{HasCause};
ghost use Rattle.mdc_types.specs.Names.{is_name};
ghost use Rattle.md_superblock.specs.Arrays.{array_of};
ghost use Rattle.leg_shelf.specs.Shelves.{is_fault, put_file, OthersStay};
ghost use Rattle.cluster_model.specs.Opening.{IsOrigin};
ghost use Rattle.disk_image.specs.Files.{leg_name, name_field};
ghost use Rattle.disk_image.specs.Created.{created_at, image_of, with_images, LeavesImages, is_shelf_fault};

use crate::image::image_of;
use crate::names::{leg_name, name_field};
use image_faults::ImageError;
use leg_shelf::{Shelf, ShelfEnd};
use md_superblock::Identity;
use mdc_types::{Geometry, LegId};
use std::alloc::Global;

fn identity(geometry: Geometry, name: &[u8; 32], uuid: &[u8; 16]) -> Identity
    ensures array { array_of result ≡ record { sizes = geometry; name = name.now; uuid = uuid.now } }
    ensures lengths { (length name.now ≡ 32) × (length uuid.now ≡ 16) }
{
    Identity {
        geometry,
        name: *name,
        uuid: *uuid,
    }
}

// What the superblocks of the array share.
fn new_array(geometry: Geometry, name: &[u8; 32], uuid: &[u8; 16]) -> Identity
    requires { is_name name.now ≡ true }
    ensures array { array_of result ≡ record { sizes = geometry; name = name.now; uuid = uuid.now } }
    ensures origin { IsOrigin (created_at (array_of result)) }
{
    // The room is what tells that the sizes are within their bounds.
    let _room = geometry.room();
    identity(geometry, name, uuid)
}

// Stores the image of leg `l`.
fn store_leg<H: Shelf>(
    alloc: Global,
    shelf: &mut H,
    array: &Identity,
    name: &str,
    l: LegId,
) -> Result<(), ShelfEnd>
    requires origin { IsOrigin (created_at (array_of array.now)) }
    requires leg { l < array.now.geometry.legs }
    ensures contents { MatchResult result
        (λ _. H.contents shelf.new ≡ put_file (H.contents shelf.old) (leg_name name.now l)
        (Some (image_of (created_at (array_of array.now)) l)))
        (λ _. OthersStay (H.contents shelf.old) (leg_name name.now l) (H.contents shelf.new)) }
    ensures legs { H.leg_faults shelf.new ≡ H.leg_faults shelf.old }
    ensures cause { HasCause is_fault (H.faults shelf.old) (H.faults shelf.new) result }
{
    let file = leg_name(alloc, name, l)?;
    let bytes = image_of(alloc, array, l)?;
    shelf.store(file.as_str(), &bytes)
}

// Stores the images of all legs.
fn store_all<H: Shelf>(
    alloc: Global,
    shelf: &mut H,
    array: &Identity,
    name: &str,
) -> Result<(), ImageError>
    requires { IsOrigin (created_at (array_of array.now)) }
    ensures images { let o = created_at (array_of array.now) in
        MatchResult result
        (λ _. H.contents shelf.new ≡ with_images (H.contents shelf.old) name.now o o.sizes.legs)
        (λ e. LeavesImages (H.contents shelf.old) name.now o e (H.contents shelf.new)) }
    ensures legs { H.leg_faults shelf.new ≡ H.leg_faults shelf.old }
    ensures cause { HasCause is_shelf_fault (H.faults shelf.old) (H.faults shelf.new) result }
{
    for l in 0..array.geometry.legs() {
        match store_leg(alloc, shelf, array, name, l) {
            Ok(()) => {}
            Err(ShelfEnd::Failed) => return Err(ImageError::Shelf(l)),
            Err(ShelfEnd::Memory(fault)) => return Err(ImageError::Memory(fault)),
        }
    }
    Ok(())
}

/// Makes the images of a new array, `NAME.0`, `NAME.1`, .. of all its legs: events number 1, all legs
/// work, no chunk is marked, and all data sectors are zero.
///
/// `Shelf` where the shelf failed in a call on that leg's file, and `Memory`. The images of lower legs
/// are then stored.
pub fn create<H: Shelf>(
    alloc: Global,
    shelf: &mut H,
    geometry: Geometry,
    name: &str,
    uuid: [u8; 16],
) -> Result<(), ImageError>
    requires length { length name.now ≤ 32 }
    requires name { is_name (name_field name.now) ≡ true }
    ensures images { let o = created_at (record { sizes = geometry; name = name_field name.now; uuid = uuid }) in
        MatchResult result
        (λ _. H.contents shelf.new ≡ with_images (H.contents shelf.old) name.now o geometry.legs)
        (λ e. LeavesImages (H.contents shelf.old) name.now o e (H.contents shelf.new)) }
    ensures legs { H.leg_faults shelf.new ≡ H.leg_faults shelf.old }
    ensures cause { HasCause is_shelf_fault (H.faults shelf.old) (H.faults shelf.new) result }
{
    let array = new_array(geometry, &name_field(name), &uuid);
    store_all(alloc, shelf, &array, name)
}
