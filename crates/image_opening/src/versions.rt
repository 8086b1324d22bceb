ghost use Rattle.std.specs.Prelude.{◌≡◌};
ghost use Rattle.image_opening.specs.Faults.{version_fault};

use image_faults::ImageFault;
use md_superblock::Super;

/// Which image versions are taken.
#[derive(Clone, Copy, PartialEq, Eq, Debug)]
pub enum Versions {
    /// 1 and 2.
    Any,
    /// 1 alone: an image of version 2 has the fault `Upgraded`.
    First,
}

/// `Upgraded` where the superblock is of version 2, and that isn't taken.
pub(crate) fn version_fault(versions: Versions, s: &Super) -> Option<ImageFault>
    ensures { result ≡ version_fault versions s.now }
{
    match versions {
        Versions::First if s.version == 2 => Some(ImageFault::Upgraded),
        _ => None,
    }
}
