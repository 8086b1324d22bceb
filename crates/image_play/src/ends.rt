ghost use Rattle.std.specs.Prelude.{◌≡◌};
ghost use Rattle.image_play.specs.Ends.{images_end};

use image_ends::CommandEnd;
use image_faults::ImageFault;
use mdc_types::LegId;

/// How a script over images ended, and what it printed.
#[derive(Clone, Copy, PartialEq, Eq, Debug)]
pub enum ImagesEnd {
    /// All lines were played and their text was written, and the legs were given back.
    Done,
    /// The image of this leg has this fault. The line `image LEG FAULT` is printed.
    Image(LegId, ImageFault),
    /// The shelf failed in a call on this leg's file, or the leg that it handed out failed while it was
    /// opened. The line `shelf NAME.LEG` is printed, where the lines were played after their text.
    Shelf(LegId),
    /// A write failed. A front of what was to be printed is, and not all.
    Write,
    /// Memory is wanting. The text of the lines before is written.
    Memory,
    /// An event found the trace full. The text of the lines before and a last line are written.
    TraceFull,
}

/// The end of a command, as one of a script.
pub(crate) fn images_end(end: CommandEnd) -> ImagesEnd
    ensures { result ≡ images_end end }
{
    match end {
        CommandEnd::Done => ImagesEnd::Done,
        CommandEnd::Image(l, fault) => ImagesEnd::Image(l, fault),
        CommandEnd::Shelf(l) => ImagesEnd::Shelf(l),
        CommandEnd::ShelfTo(l) => ImagesEnd::Shelf(l),
        CommandEnd::Write => ImagesEnd::Write,
        CommandEnd::Memory => ImagesEnd::Memory,
    }
}
