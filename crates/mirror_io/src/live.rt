use mdc_types::{LegId, ReadNo, Sector, SectorNo, WriteNo};

/// A write in flight.
#[derive(Clone, Copy)]
pub struct LiveWrite {
    pub number: WriteNo,
    pub sector: SectorNo,
    pub value: Sector,
    /// Whether a transfer to a leg was tried.
    pub started: bool,
    /// The legs that have the value, one bit each.
    pub done: u8,
}

/// A read in flight.
#[derive(Clone, Copy)]
pub struct LiveRead {
    pub number: ReadNo,
    pub sector: SectorNo,
    /// The leg that it was given.
    pub chosen: LegId,
}
