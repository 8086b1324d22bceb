ghost use Rattle.second_opening.specs.Laws.{OpenAlike, UpgradedImagesOpenAlike};

/// Images of version 2 that were made of images without a fault have none either, and they open with
/// what the old ones open with, but for the version. It does nothing: its clause is the law.
pub fn upgraded_images_open_alike()
    ensures { UpgradedImagesOpenAlike }
{}

/// Where the new images stand as files under a name, legs that are opened from these have no fault,
/// and they open with what the old ones open with, but for the version. It does nothing: its clause is
/// the law.
pub fn upgraded_files_open_alike()
    ensures { OpenAlike }
{}
