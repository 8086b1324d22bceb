use crate::{Event, LegId, NodeId, ReadNo, Sector, SectorNo, WriteNo};
use dlm_modes::Mode;

/// What became of an accepted event.
#[derive(Clone, Copy)]
pub enum Outcome {
    Done,
    /// The number of the new write.
    Write(WriteNo),
    /// The number of the new read.
    Read(ReadNo),
    /// What was read, and from which leg.
    Value { leg: LegId, value: Sector },
    /// The transfer failed, and the node lost the leg.
    Lost(LegId),
    /// The transfer failed on the last working leg, which stays.
    Io(LegId),
    Granted { node: NodeId, mode: Mode },
    /// The events number that was drawn.
    Events(u64),
    /// The number of the message's kind, and its sender.
    Message { kind: u8, sender: NodeId },
    /// The round was whole.
    Whole,
    /// The sender died in the round.
    Broken,
    /// The events number of a superblock, and its sector, which isn't printed.
    Super { events: u64, block: Sector },
    /// No superblock was read from the leg.
    Unread(LegId),
    /// No superblock was written to the leg.
    Unreached(LegId),
    /// Printed as `done`.
    Settled { sector: SectorNo, value: Sector },
    /// The page that was read. Printed as `done`.
    Page(Sector),
}

/// An accepted event and its outcome.
#[derive(Clone, Copy)]
pub struct Entry {
    pub event: Event,
    pub outcome: Outcome,
}
