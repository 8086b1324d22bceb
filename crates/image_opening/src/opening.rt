ghost use Rattle.std.specs.Prelude.{◌≡◌, ◌≤◌, ◌==◌, [], ℕ, false, length, map, IfErr, IfOk, OnOk, Err};
ghost use Rattle.mdc_types.specs.Faults.{HasCause, Rose};
ghost use Rattle.image_faults.specs.declared.faults.ImageError.TheVariants.{Device};
ghost use Rattle.image_files.specs.Closed.{NeverFalls, OnlyTheseChange, is_shelf_fault};
ghost use Rattle.image_files.specs.Ends.{IsOfLeg};
ghost use Rattle.image_files.specs.Names.{leg_names};
ghost use Rattle.cluster_model.specs.Contents.{HasImages, IsImages};
ghost use Rattle.cluster_model.specs.Opening.{IsOrigin};
ghost use Rattle.world_state.specs.Told.{Fits, legs_of};
ghost use Rattle.image_array.specs.Heads.{origin_of};
ghost use Rattle.image_array.specs.Legs.{AreAll, super_at};
ghost use Rattle.image_opening.specs.Opened.{AreOpened, AreReadOf, TellsFiles};
ghost use Rattle.image_opening.specs.Faults.{IsArrayEnd, IsOpenEnd, TellsFault, version_fault};

use crate::Versions;
use crate::data::read_base;
use crate::legs::open_legs;
use image_array::{Head, head_of};
use image_faults::{ImageError, LegImage};
use image_files::{FileNames, close_after};
use leg_shelf::Shelf;
use leg_store::LegDev;
use mdc_types::Sector;
use std::alloc::Global;
use std::thread::Threads;
use world_openings::Opening;

/// An array whose images were opened.
#[derive(Drop)]
pub struct Opened<L: LegDev + Drop> {
    /// What it opens with.
    pub opening: Opening,
    /// All legs.
    pub legs: Vec<L>,
    /// What was read of each.
    pub images: Vec<LegImage>,
}

// What the array opens with.
fn opening_of(head: Head, base: Vec<Vec<Sector>>) -> Opening
    ensures { result ≡ origin_of head (map (λ values. values.items) base.items) }
{
    Opening::of_images(
        head.geometry,
        head.name,
        head.uuid,
        head.pending,
        head.roles,
        head.events,
        base,
    )
}

// What the legs that were read open with, by all their data.
fn read_array<R: Threads + Sync, L: LegDev>(
    rt: &R,
    alloc: Global,
    legs: &mut Vec<L>,
    images: &[LegImage],
) -> Result<Opening, ImageError>
    requires all { AreAll images.now }
    requires many { length legs.old.items ≡ length images.now }
    requires read { AreReadOf images.now (map L.contents legs.old.items)
        (map L.size legs.old.items) }
    ensures origin { IfOk result (λ o. IsOrigin o) }
    ensures nobody { IfOk result (λ o. o.members ≡ 0) }
    ensures fits { IfOk result (λ o. Fits o.sizes (map L.size legs.old.items)) }
    ensures images { IfOk result (λ o. IsImages o (legs_of (map L.contents legs.old.items))) }
    ensures base { IfOk result (λ o. length o.base ≡ o.sizes.room) }
    ensures version { IfOk result (λ o. o.sizes.second ≡ ((super_at images.now 0).version == 2)) }
    ensures end { IfErr result (IsArrayEnd (map L.contents legs.old.items) images.now
        (map L.faults legs.new.items)) }
    ensures contents { map L.contents legs.new.items ≡ map L.contents legs.old.items }
    ensures size { map L.size legs.new.items ≡ map L.size legs.old.items }
{
    let head = head_of(images);
    let base = read_base(rt, alloc, &head, images, legs)?;
    Ok(opening_of(head, base))
}

// Opens and reads all legs, and their data.
fn open_all<R: Threads + Sync, H: Shelf>(
    rt: &R,
    alloc: Global,
    shelf: &mut H,
    names: &FileNames,
    versions: Versions,
    legs: &mut Vec<H::Leg>,
    images: &mut Vec<LegImage>,
) -> Result<Opening, ImageError>
    requires legs { legs.old.items ≡ [] }
    requires images { images.old.items ≡ [] }
    ensures origin { IfOk result (λ o. IsOrigin o) }
    ensures nobody { IfOk result (λ o. o.members ≡ 0) }
    ensures fits { IfOk result (λ o. Fits o.sizes (map H.Leg.size legs.new.items)) }
    ensures images { IfOk result (λ o. IsImages o (legs_of (map H.Leg.contents legs.new.items))) }
    ensures base { IfOk result (λ o. length o.base ≡ o.sizes.room) }
    ensures version { IfOk result (λ o. versions ≡ Versions.First → o.sizes.second ≡ false) }
    ensures opened { OnOk result (AreOpened (H.contents shelf.old) names.now images.new.items
        (map H.Leg.contents legs.new.items) (map H.Leg.size legs.new.items)) }
    ensures many { length legs.new.items ≤ 8 }
    ensures end { IfErr result (IsOpenEnd (H.contents shelf.old) names.now versions
        (map H.Leg.faults legs.new.items)) }
    ensures contents { H.contents shelf.new ≡ H.contents shelf.old }
    ensures legs { H.leg_faults shelf.new ≡ H.leg_faults shelf.old }
    ensures cause { HasCause is_shelf_fault (H.faults shelf.old) (H.faults shelf.new) result }
{
    open_legs(alloc, shelf, names, versions, legs, images)?;
    read_array(rt, alloc, legs, images.as_slice())
}

/// Opens the images of the array of this name: the files of its legs in their order, and of each its
/// superblock and slots; and then all data sectors of the legs that work, each of which is read once.
///
/// `Image` with the first fault: of the legs in their order, of each by its file's size, then by
/// itself, and then against the legs before it; where only version 1 is taken, `Upgraded` of leg 0
/// before leg 1 is opened; and at last `Unmarked` of the first sector that has it. `Shelf` only where the
/// shelf's count of faults rose, `Device` only where a leg failed, whose count is among those of the
/// shelf then, and `Memory`. After an error all legs that were opened were given back, and of other
/// names nothing has changed.
pub fn open_array<R: Threads + Sync, H: Shelf>(
    rt: &R,
    alloc: Global,
    shelf: &mut H,
    name: &str,
    versions: Versions,
) -> Result<Opened<H::Leg>, ImageError>
    ensures origin { IfOk result (λ a. IsOrigin a.opening) }
    ensures nobody { IfOk result (λ a. a.opening.members ≡ 0) }
    ensures fits { IfOk result (λ a. Fits a.opening.sizes (map H.Leg.size a.legs.items)) }
    ensures images { IfOk result (λ a.
        IsImages a.opening (legs_of (map H.Leg.contents a.legs.items))) }
    ensures told { TellsFiles (H.contents shelf.old) → IfOk result (λ a.
        HasImages a.opening (legs_of (map H.Leg.contents a.legs.items))) }
    ensures version { IfOk result (λ a. versions ≡ Versions.First
        → a.opening.sizes.second ≡ false) }
    ensures opened { IfOk result (λ a. AreOpened (H.contents shelf.old) (leg_names name.now)
        a.images.items (map H.Leg.contents a.legs.items) (map H.Leg.size a.legs.items)) }
    ensures legs { IfOk result (λ a. length a.legs.items ≡ a.opening.sizes.legs) }
    ensures many { IfOk result (λ a. length a.images.items ≡ length a.legs.items) }
    ensures base { IfOk result (λ a. length a.opening.base ≡ a.opening.sizes.room) }
    ensures same { OnOk result (H.contents shelf.new ≡ H.contents shelf.old) }
    ensures uncounted { OnOk result (H.leg_faults shelf.new ≡ H.leg_faults shelf.old) }
    ensures fault { IfErr result (TellsFault (H.contents shelf.old) (leg_names name.now) versions) }
    ensures leg { IfErr result IsOfLeg }
    ensures others { OnlyTheseChange (leg_names name.now) 0 8 (H.contents shelf.old)
        (H.contents shelf.new) }
    ensures counts { NeverFalls (H.leg_faults shelf.old) (H.leg_faults shelf.new) }
    ensures device { (l : ℕ) → result ≡ Err (Device l)
        → Rose (H.leg_faults shelf.old) (H.leg_faults shelf.new) }
    ensures cause { HasCause is_shelf_fault (H.faults shelf.old) (H.faults shelf.new) result }
{
    let names = FileNames::new(alloc, name)?;
    let mut legs = Vec::new(alloc);
    let mut images = Vec::new(alloc);
    match open_all(rt, alloc, shelf, &names, versions, &mut legs, &mut images) {
        Ok(opening) => Ok(Opened {
            opening,
            legs,
            images,
        }),
        Err(end) => Err(close_after(shelf, &names, legs, end)),
    }
}
