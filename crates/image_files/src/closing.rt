ghost use Rattle.std.specs.Prelude.{◌≡◌, ◌<◌, ◌≤◌, ℕ, length, map, MatchResult, IfErr};
ghost use Rattle.mdc_types.specs.Faults.{HasCause, Rose};
ghost use Rattle.image_faults.specs.declared.faults.ImageError.TheVariants.{Device};
ghost use Rattle.leg_shelf.specs.Shelves.{TakesLeg, OthersStay, counted};
ghost use Rattle.image_files.specs.Names.{file_of, leg_names};
ghost use Rattle.image_files.specs.Ends.{IsOfLeg, HasFailed};
ghost use Rattle.image_files.specs.Closed.{Closes, CountsAll, IsCloseEnd, NeverFalls, OnlyTheseChange, counted_all, is_shelf_fault};

use crate::FileNames;
use crate::ends::{first_end, shelf_error};
use image_faults::ImageError;
use leg_shelf::Shelf;
use mdc_types::LegId;
use std::alloc::Global;

// Gives leg `l` back under its name.
fn close_leg<H: Shelf>(
    shelf: &mut H,
    names: &FileNames,
    l: LegId,
    leg: H::Leg,
) -> Result<(), ImageError>
    ensures contents { MatchResult result
        (λ _. TakesLeg (H.contents shelf.old) (file_of names.now l) (H.Leg.contents leg) (H.contents shelf.new))
        (λ _. OthersStay (H.contents shelf.old) (file_of names.now l) (H.contents shelf.new)) }
    ensures end { IfErr result (IsCloseEnd l) }
    ensures legs { H.leg_faults shelf.new ≡ counted (H.leg_faults shelf.old) (H.Leg.faults leg) }
    ensures cause { HasCause is_shelf_fault (H.faults shelf.old) (H.faults shelf.new) result }
{
    match shelf.close_leg(names.of(l), leg) {
        Ok(()) => Ok(()),
        Err(end) => Err(shelf_error(l, end)),
    }
}

/// Gives the legs back in their order, each under its name, also after one that wasn't taken. It tells
/// the first that wasn't: `Shelf` where the shelf failed then, and `Memory`.
pub fn close_all<H: Shelf>(
    shelf: &mut H,
    names: &FileNames,
    legs: Vec<H::Leg>,
) -> Result<(), ImageError>
    requires many { length legs.items ≤ 8 }
    ensures contents { Closes names.now (map H.Leg.contents legs.items) (length legs.items)
        (H.contents shelf.old) result (H.contents shelf.new) }
    ensures leg { IfErr result IsOfLeg }
    ensures legs { H.leg_faults shelf.new
        ≡ counted_all (H.leg_faults shelf.old) (map H.Leg.faults legs.items) }
    ensures cause { HasCause is_shelf_fault (H.faults shelf.old) (H.faults shelf.new) result }
{
    let mut first = Ok(());
    let mut l = 0;
    for leg in legs {
        let next = close_leg(shelf, names, l, leg);
        first = first_end(first, next);
        l += 1;
    }
    first
}

/// Closes the legs, and hands the error on. A close that fails doesn't change it.
pub fn close_after<H: Shelf>(
    shelf: &mut H,
    names: &FileNames,
    legs: Vec<H::Leg>,
    end: ImageError,
) -> ImageError
    requires many { length legs.items ≤ 8 }
    requires failed { HasFailed (map H.Leg.faults legs.items) end }
    ensures same { result ≡ end }
    ensures others { OnlyTheseChange names.now 0 8 (H.contents shelf.old) (H.contents shelf.new) }
    ensures counts { NeverFalls (H.leg_faults shelf.old) (H.leg_faults shelf.new) }
    ensures device { (l : ℕ) → end ≡ Device l
        → Rose (H.leg_faults shelf.old) (H.leg_faults shelf.new) }
    ensures later { H.faults shelf.old ≤ H.faults shelf.new }
{
    let _ = close_all(shelf, names, legs);
    end
}

/// Gives the legs of the array of this name back, in their order and each under its name, also after
/// one that wasn't taken. It tells the first that wasn't: `Shelf` where the shelf failed then, and
/// `Memory`.
pub fn close<H: Shelf>(
    alloc: Global,
    shelf: &mut H,
    name: &str,
    legs: Vec<H::Leg>,
) -> Result<(), ImageError>
    requires many { length legs.items ≤ 8 }
    ensures contents { Closes (leg_names name.now) (map H.Leg.contents legs.items) (length legs.items)
        (H.contents shelf.old) result (H.contents shelf.new) }
    ensures leg { IfErr result IsOfLeg }
    ensures legs { CountsAll (H.leg_faults shelf.old) (map H.Leg.faults legs.items) result
        (H.leg_faults shelf.new) }
    ensures cause { HasCause is_shelf_fault (H.faults shelf.old) (H.faults shelf.new) result }
{
    let names = FileNames::new(alloc, name)?;
    close_all(shelf, &names, legs)
}
