ghost use Rattle.image_files.specs.Laws.{OpenedAndClosed};

/// Legs that were opened and given back as they were leave all files as they were. It does nothing: its
/// clause is the law.
pub fn opened_and_closed()
    ensures { OpenedAndClosed }
{}
