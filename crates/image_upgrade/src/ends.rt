ghost use Rattle.std.specs.Prelude.{◌≡◌};
ghost use Rattle.image_second.specs.Second.{IsMakeEnd};
ghost use Rattle.image_upgrade.specs.Ends.{made_error};

use image_faults::{ImageError, LegEnd};
use mdc_types::LegId;
use std::alloc::AllocError;

/// Why an array wasn't upgraded.
#[derive(Clone, Copy, PartialEq, Eq, Debug)]
pub(crate) enum UpgradeError {
    /// So it was with the images of the old array, or there was no memory.
    Old(ImageError),
    /// The shelf failed in a call on this leg's file of the new array.
    New(LegId),
}

impl From<AllocError> for UpgradeError {
    ghost use Rattle.image_faults.specs.declared.faults.ImageError.TheVariants as errors;
    ghost use Rattle.image_upgrade.specs.declared.ends.UpgradeError.TheVariants.{Old};

    ghost from_gives = { λ fault e. e ≡ Old (errors.Memory fault) };

    fn from(fault: AllocError) -> UpgradeError {
        UpgradeError::Old(ImageError::Memory(fault))
    }
}

impl From<ImageError> for UpgradeError {
    ghost use Rattle.image_upgrade.specs.declared.ends.UpgradeError.TheVariants.{Old};

    ghost from_gives = { λ error e. e ≡ Old error };

    fn from(error: ImageError) -> UpgradeError {
        UpgradeError::Old(error)
    }
}

/// Why the new image of leg `l` wasn't made.
pub(crate) fn made_error(l: LegId, end: LegEnd) -> ImageError
    requires { IsMakeEnd end }
    ensures { result ≡ made_error l end }
{
    match end {
        LegEnd::Fault(_) => unreachable!(),
        LegEnd::Failed => ImageError::Device(l),
        LegEnd::Memory(fault) => ImageError::Memory(fault),
    }
}
