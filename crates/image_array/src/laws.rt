ghost use Rattle.image_array.specs.Laws.{OpensImages};

/// What was read of all legs, and the base that was made of their data, are what the legs open with.
/// It does nothing: its clause is the law.
pub fn images_are_opened()
    ensures { OpensImages }
{}
