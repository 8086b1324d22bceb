ghost use Rattle.disk_image.specs.Laws.{NewImagesAreSound};

/// What `create` leaves are images without a fault, and their opening is sound: that of a header with
/// the array's numbers, but for its name and uuid, and with no members. It does nothing: its clause is
/// the law.
pub fn new_images_are_sound()
    ensures { NewImagesAreSound }
{}
