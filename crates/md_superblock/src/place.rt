//! Where the fields of a superblock begin in its sector, in bytes.

pub(crate) const MAGIC: usize = 0;

pub(crate) const MAJOR_VERSION: usize = 4;

pub(crate) const FEATURE_MAP: usize = 8;

pub(crate) const ARRAY_UUID: usize = 16;

pub(crate) const NAME: usize = 32;

pub(crate) const LEVEL: usize = 72;

pub(crate) const SIZE: usize = 80;

pub(crate) const RAID_DISKS: usize = 92;

pub(crate) const BITMAP_OFFSET: usize = 96;

pub(crate) const DATA_OFFSET: usize = 128;

pub(crate) const DATA_SIZE: usize = 136;

pub(crate) const SUPERBLOCK_OFFSET: usize = 144;

pub(crate) const DEVICE_NUMBER: usize = 160;

pub(crate) const DEVICE_UUID: usize = 168;

pub(crate) const EVENTS: usize = 200;

pub(crate) const CHECKSUM: usize = 216;

pub(crate) const MAX_DEV: usize = 220;

pub(crate) const ROLES: usize = 256;
