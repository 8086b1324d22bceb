ghost use Rattle.std.specs.Prelude.{◌≡◌};

use md_superblock::SuperFault;
use mdc_types::{LegId, NodeId, SectorNo};
use std::alloc::AllocError;
use thiserror::Error;

/// What is wrong with an image.
#[derive(Clone, Copy, PartialEq, Eq, Debug, Error)]
pub enum ImageFault {
    /// There is no such file.
    #[error("there is no such file")]
    Missing,
    /// It has fewer bytes than its superblock says, or too few for one.
    #[error("the file is too short")]
    Short,
    /// It has more bytes than its superblock says.
    #[error("the file is too long")]
    Long,
    /// Sector 8 is no superblock.
    #[error("there is no superblock: {0}")]
    Super(SuperFault),
    /// This slot isn't as it has to be.
    #[error("slot {0} isn't as it has to be")]
    Slot(NodeId),
    /// It is no image of leg 0's array, or another leg's, or says other things of one events number.
    #[error("the image is of another array or leg, or of another state")]
    Geometry,
    /// In this sector it differs from the first working leg, and no slot marks the chunk.
    #[error("sector {0} differs where nothing is marked")]
    Unmarked(SectorNo),
    /// It is of image version 2 already.
    #[error("the image has version 2 already")]
    Upgraded,
}

/// Why a call on images wasn't done.
#[derive(Clone, Copy, PartialEq, Eq, Debug, Error)]
pub enum ImageError {
    /// The image of this leg has this fault.
    #[error("image {0}: {1}")]
    Image(LegId, ImageFault),
    /// The shelf failed in a call on this leg's file.
    #[error("the shelf failed at leg {0}")]
    Shelf(LegId),
    /// This leg failed in a transfer.
    #[error("leg {0} failed")]
    Device(LegId),
    /// There was no memory.
    #[error("out of memory")]
    Memory(AllocError),
}

impl From<AllocError> for ImageError {
    ghost use Rattle.image_faults.specs.declared.faults.ImageError.TheVariants as errors;

    ghost from_gives = { λ fault e. e ≡ errors.Memory fault };

    fn from(fault: AllocError) -> ImageError {
        ImageError::Memory(fault)
    }
}
