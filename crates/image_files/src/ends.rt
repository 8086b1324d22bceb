ghost use Rattle.std.specs.Prelude.{◌≡◌};
ghost use Rattle.leg_shelf.specs.Shelves.{is_fault};
ghost use Rattle.image_files.specs.Closed.{IsCloseEnd, first_end, is_shelf_fault};

use image_faults::ImageError;
use leg_shelf::ShelfEnd;
use mdc_types::LegId;

/// Why a call on leg `l`'s file wasn't done.
pub(crate) fn shelf_error(l: LegId, end: ShelfEnd) -> ImageError
    ensures end { IsCloseEnd l result }
    ensures fault { is_shelf_fault result ≡ is_fault end }
{
    match end {
        ShelfEnd::Failed => ImageError::Shelf(l),
        ShelfEnd::Memory(fault) => ImageError::Memory(fault),
    }
}

/// The first of two ends.
pub(crate) fn first_end(
    first: Result<(), ImageError>,
    next: Result<(), ImageError>,
) -> Result<(), ImageError>
    ensures { result ≡ first_end first next }
{
    match first {
        Ok(()) => next,
        Err(end) => Err(end),
    }
}
