use image_faults::ImageFault;
use mdc_types::LegId;

/// How a command on images ended, and what it printed.
#[derive(Clone, Copy, PartialEq, Eq, Debug)]
pub enum CommandEnd {
    /// All was done, and the lines of all legs are printed.
    Done,
    /// The image of this leg has this fault. The line `image LEG FAULT` is printed.
    Image(LegId, ImageFault),
    /// The shelf failed in a call on this leg's file, or the leg that it handed out failed. The line
    /// `shelf NAME.LEG` is printed.
    Shelf(LegId),
    /// The same of the array that an upgrade makes, whose name is printed then.
    ShelfTo(LegId),
    /// A write failed. A front of what was to be printed is, and not all.
    Write,
    /// There was no memory. Nothing is printed.
    Memory,
}
