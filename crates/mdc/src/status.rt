ghost use Rattle.std.specs.Prelude.{◌≡◌};
ghost use Rattle.mdc.specs.Codes.{code_of, command_status, images_status, status_of};

use image_ends::CommandEnd;
use image_faults::ImageFault;
use image_play::ImagesEnd;
use mdc_types::LegId;
use script_play::RunEnd;
use script_text::ScriptFault;

/// How a call of the program ended.
#[derive(Clone, Copy, PartialEq, Eq, Debug)]
pub enum Status {
    /// The script was played to its end.
    Done,
    /// The words are no command.
    Usage,
    /// That is the first fault of the script.
    Script(ScriptFault),
    /// The image of this leg has this fault.
    Image(LegId, ImageFault),
    /// A read of the input failed.
    ReadFault,
    /// A write of the output failed.
    WriteFault,
    /// The shelf failed in a call on the file of this leg, or the leg failed outside the events and
    /// queries of a script.
    Shelf(LegId),
    /// Memory is wanting.
    Memory,
    /// An event was tried while the trace had as many entries as it may have.
    TraceFull,
}

/// The answer by how the lines ran.
pub(crate) fn status_of(end: RunEnd) -> Status
    ensures { result ≡ status_of end }
{
    match end {
        RunEnd::Done => Status::Done,
        RunEnd::Write => Status::WriteFault,
        RunEnd::Memory => Status::Memory,
        RunEnd::TraceFull => Status::TraceFull,
    }
}

/// The answer by how a command on images ended.
pub(crate) fn command_status(end: CommandEnd) -> Status
    ensures { result ≡ command_status end }
{
    match end {
        CommandEnd::Done => Status::Done,
        CommandEnd::Image(l, fault) => Status::Image(l, fault),
        CommandEnd::Shelf(l) => Status::Shelf(l),
        CommandEnd::ShelfTo(l) => Status::Shelf(l),
        CommandEnd::Write => Status::WriteFault,
        CommandEnd::Memory => Status::Memory,
    }
}

/// The answer by how a script over images ended.
pub(crate) fn images_status(end: ImagesEnd) -> Status
    ensures { result ≡ images_status end }
{
    match end {
        ImagesEnd::Done => Status::Done,
        ImagesEnd::Image(l, fault) => Status::Image(l, fault),
        ImagesEnd::Shelf(l) => Status::Shelf(l),
        ImagesEnd::Write => Status::WriteFault,
        ImagesEnd::Memory => Status::Memory,
        ImagesEnd::TraceFull => Status::TraceFull,
    }
}

impl Status {
    /// The exit status of the process.
    pub fn code(&self) -> u8
        ensures { result ≡ code_of self.now }
    {
        match self {
            Status::Done => 0,
            Status::Usage => 2,
            Status::Script(_) => 3,
            Status::Image(..) => 4,
            Status::ReadFault => 5,
            Status::WriteFault => 6,
            Status::Shelf(_) => 7,
            Status::Memory => 8,
            Status::TraceFull => 9,
        }
    }
}
