ghost use Rattle.std.specs.Prelude.{◌≡◌, ◌≤◌, Some, IfOk, IfErr};
ghost use Rattle.mdc_types.specs.Faults.{HasCause};
ghost use Rattle.leg_shelf.specs.Shelves.{GivesSize};
ghost use Rattle.image_files.specs.Names.{file_of};
ghost use Rattle.image_files.specs.Closed.{is_shelf_fault};
ghost use Rattle.image_files.specs.Opened.{OpensFile, RefusesFile};

use crate::FileNames;
use crate::ends::shelf_error;
use image_faults::{ImageError, ImageFault, size_fault};
use leg_shelf::Shelf;
use leg_store::LegDev;
use mdc_types::LegId;

/// A file that is open as a leg, and how many bytes it has.
#[derive(Drop)]
pub struct OpenFile<L: LegDev + Drop> {
    pub leg: L,
    pub size: u64,
}

// The bytes of a file, which may be those of an image.
fn size_of<H: Shelf>(shelf: &mut H, file: &str, l: LegId) -> Result<u64, ImageError>
    ensures size { IfOk result (λ size. GivesSize (H.contents shelf.old) file.now (Some size)) }
    ensures least { IfOk result (λ size. 40960 ≤ size) }
    ensures refused { IfErr result (RefusesFile (H.contents shelf.old) file.now l) }
    ensures contents { H.contents shelf.new ≡ H.contents shelf.old }
    ensures legs { H.leg_faults shelf.new ≡ H.leg_faults shelf.old }
    ensures cause { HasCause is_shelf_fault (H.faults shelf.old) (H.faults shelf.new) result }
{
    let size = match shelf.size(file) {
        Ok(size) => size,
        Err(end) => return Err(shelf_error(l, end)),
    };
    match size_fault(size) {
        Some(fault) => Err(ImageError::Image(l, fault)),
        None => Ok(size.unwrap_or(0)),
    }
}

/// Opens the file of leg `l`. Nothing is read of it yet.
///
/// `Image` with `Missing` where there is none, and with `Short` where it has fewer than 40,960 bytes;
/// `Shelf` only where the shelf's count of faults rose; `Memory`.
pub fn open_file<H: Shelf>(
    shelf: &mut H,
    names: &FileNames,
    l: LegId,
) -> Result<OpenFile<H::Leg>, ImageError>
    ensures leg { IfOk result (λ file.
        OpensFile (H.contents shelf.old) (file_of names.now l) (H.Leg.contents file.leg) file.size) }
    ensures least { IfOk result (λ file. 40960 ≤ file.size) }
    ensures sound { IfOk result (λ file. H.Leg.faults file.leg ≡ 0) }
    ensures refused { IfErr result (RefusesFile (H.contents shelf.old) (file_of names.now l) l) }
    ensures contents { H.contents shelf.new ≡ H.contents shelf.old }
    ensures legs { H.leg_faults shelf.new ≡ H.leg_faults shelf.old }
    ensures cause { HasCause is_shelf_fault (H.faults shelf.old) (H.faults shelf.new) result }
{
    let size = size_of(shelf, names.of(l), l)?;
    match shelf.open_leg(names.of(l)) {
        Ok(Some(leg)) => Ok(OpenFile { leg, size }),
        Ok(None) => Err(ImageError::Image(l, ImageFault::Missing)),
        Err(end) => Err(shelf_error(l, end)),
    }
}
