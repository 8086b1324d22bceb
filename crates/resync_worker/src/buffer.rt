use mdc_types::{Sector, SectorNo};

/// A sector that was read from one leg and is to be written to others.
#[derive(Clone, Copy)]
pub struct Buffer {
    pub sector: SectorNo,
    pub value: Sector,
    /// The legs that have the value, one bit each.
    pub done: u8,
}
