ghost use Rattle.std.specs.Prelude.{◌≡◌};
ghost use Rattle.md_superblock.specs.Words.{field_word};

use thiserror::Error;

/// A field of the superblock, in the order of the table, or the bytes that no field has.
#[derive(Clone, Copy, PartialEq, Eq, Debug)]
pub enum Field {
    Magic,
    MajorVersion,
    FeatureMap,
    ArrayUuid,
    Name,
    Level,
    Size,
    RaidDisks,
    BitmapOffset,
    DataOffset,
    DataSize,
    SuperblockOffset,
    DeviceNumber,
    DeviceUuid,
    Events,
    Checksum,
    MaxDev,
    Roles,
    Rest,
}

impl Field {
    /// The field's name in the table, with dashes for spaces; `rest` for the bytes that no field has.
    pub fn word(&self) -> &'static str
        ensures { result.now ≡ field_word self.now }
    {
        match self {
            Field::Magic => "magic",
            Field::MajorVersion => "major-version",
            Field::FeatureMap => "feature-map",
            Field::ArrayUuid => "array-uuid",
            Field::Name => "name",
            Field::Level => "level",
            Field::Size => "size-in-sectors",
            Field::RaidDisks => "raid-disks",
            Field::BitmapOffset => "bitmap-offset-in-sectors-from-the-superblock",
            Field::DataOffset => "data-offset",
            Field::DataSize => "data-size",
            Field::SuperblockOffset => "superblock-offset",
            Field::DeviceNumber => "device-number",
            Field::DeviceUuid => "device-uuid",
            Field::Events => "events",
            Field::Checksum => "checksum",
            Field::MaxDev => "max_dev",
            Field::Roles => "eight-roles-of-16-bits",
            Field::Rest => "rest",
        }
    }
}

/// Why a sector is no superblock: the first of its faults.
#[derive(Clone, Copy, PartialEq, Eq, Debug, Error)]
pub enum SuperFault {
    /// The magic number is this one.
    #[error("the magic number is {0:#x}")]
    Magic(u32),
    /// The major version is this one.
    #[error("the major version is {0}")]
    Version(u32),
    /// The checksum that is stored isn't that of the bytes, which was found.
    #[error("the checksum is {stored:#x}, and that of the bytes is {found:#x}")]
    Sum { stored: u32, found: u32 },
    /// The level is this one.
    #[error("the level is {0}")]
    Level(u32),
    /// The field is the first other one out of its range.
    #[error("a field is out of its range")]
    Range(Field),
    /// The 16 bits of this device are the first that are no role of it. It is 8 where all devices have
    /// a role and none works.
    #[error("device {0} has no role, or none works")]
    Role(u8),
}
