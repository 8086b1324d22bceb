use mdc_types::{LegId, Roles};

/// What a superblock says.
#[derive(Clone, Copy, PartialEq, Eq, Debug)]
pub struct Super {
    /// The number of legs of the array (raid disks), 2 to 8.
    pub geometry_legs: u8,
    /// The number of data sectors of the array, 1 to the room.
    pub sectors: u32,
    /// The number of data sectors that the leg has room for, up to 131,072.
    pub room: u32,
    /// The image version, 1 or 2.
    pub version: u8,
    /// The array's name: 1 to 31 ASCII letters, digits or `_`, then zeros.
    pub name: [u8; 32],
    /// The array's uuid.
    pub uuid: [u8; 16],
    /// The leg's number, below the number of legs.
    pub device: LegId,
    /// The events number, 1 to 2^63.
    pub events: u64,
    /// The roles of the legs. One works at least, and there is none past the legs.
    pub roles: Roles,
}
