ghost use Rattle.std.specs.Prelude.{◌≡◌, ◌<◌, ◌≤◌, nat_eq, slice_range};
ghost use Rattle.std.specs.Cmp.Lexicographic.{pointwise};
ghost use Rattle.md_superblock.specs.Layout.{number_at};
ghost use Rattle.mdc_types.specs.Names.{device_uuid};
ghost use Rattle.md_superblock.specs.Faults.{array_fault, device_fault, state_fault, is_stray, rest_is_zero};

use crate::faults::Field;
use crate::layout::{bytes_at, is_named, u32_at, u64_at};
use crate::names::is_name;
use crate::place;
use mdc_types::LegId;

/// The first fault of the fields that all legs share, in bytes 0 to 127.
#[tactic(auto, unfolding(crate::specs::Faults::array_fault))]
pub(crate) fn array_fault(bytes: &[u8; 512]) -> Option<Field>
    ensures { result ≡ array_fault bytes.now }
{
    let size = u64_at(bytes, place::SIZE);
    let raid_disks = u32_at(bytes, place::RAID_DISKS);
    if u32_at(bytes, place::FEATURE_MAP) != 1 {
        Some(Field::FeatureMap)
    } else if !is_name(&bytes[place::NAME..place::NAME + 32]) {
        Some(Field::Name)
    } else if size < 1 || 131_072 < size {
        Some(Field::Size)
    } else if raid_disks < 2 || 8 < raid_disks {
        Some(Field::RaidDisks)
    } else if u32_at(bytes, place::BITMAP_OFFSET) != 8 {
        Some(Field::BitmapOffset)
    } else {
        None
    }
}

/// The uuid of a device: the array's, its last byte replaced by the device number.
pub(crate) fn device_uuid(mut uuid: [u8; 16], device: LegId) -> [u8; 16]
    ensures { result ≡ device_uuid uuid device }
{
    uuid[15] = device;
    uuid
}

fn has_device_uuid(bytes: &[u8; 512], device: LegId) -> bool
    ensures { result ≡ pointwise nat_eq (slice_range bytes.now 168 184) (device_uuid (slice_range bytes.now 16 32) device) }
{
    let array: [u8; 16] = bytes_at(bytes, place::ARRAY_UUID);
    let found: [u8; 16] = bytes_at(bytes, place::DEVICE_UUID);
    found == device_uuid(array, device)
}

/// The first fault of the fields of this leg, in bytes 128 to 191.
#[tactic(auto, unfolding(crate::specs::Faults::device_fault))]
pub(crate) fn device_fault(bytes: &[u8; 512]) -> Option<Field>
    requires { number_at bytes.now 92 4 ≤ 8 }
    ensures { result ≡ device_fault bytes.now }
{
    let data_offset = u64_at(bytes, place::DATA_OFFSET);
    let room = u64_at(bytes, place::DATA_SIZE);
    let device = u32_at(bytes, place::DEVICE_NUMBER);
    let raid_disks = u32_at(bytes, place::RAID_DISKS);
    if data_offset != 80 && data_offset != 272 {
        Some(Field::DataOffset)
    } else if room < u64_at(bytes, place::SIZE) || 131_072 < room {
        Some(Field::DataSize)
    } else if u64_at(bytes, place::SUPERBLOCK_OFFSET) != 8 {
        Some(Field::SuperblockOffset)
    } else if raid_disks <= device {
        Some(Field::DeviceNumber)
    } else if !has_device_uuid(bytes, device as u8) {
        Some(Field::DeviceUuid)
    } else {
        None
    }
}

// Whether this is a byte that no field has, and isn't 0.
fn is_stray(bytes: &[u8; 512], i: usize) -> bool
    requires { i < 512 }
    ensures { result ≡ is_stray bytes.now i }
{
    !is_named(i) && bytes[i] != 0
}

// Whether each byte that no field has is 0.
fn rest_is_zero(bytes: &[u8; 512]) -> bool
    ensures { result ≡ rest_is_zero bytes.now }
{
    for i in 0..512 {
        if is_stray(bytes, i) {
            return false;
        }
    }
    true
}

/// The first fault of the fields of the array's state, and of the bytes that no field has.
#[tactic(auto, unfolding(crate::specs::Faults::state_fault))]
pub(crate) fn state_fault(bytes: &[u8; 512]) -> Option<Field>
    ensures { result ≡ state_fault bytes.now }
{
    let events = u64_at(bytes, place::EVENTS);
    if events < 1 || 0x8000_0000_0000_0000 < events {
        Some(Field::Events)
    } else if u32_at(bytes, place::MAX_DEV) != 8 {
        Some(Field::MaxDev)
    } else if !rest_is_zero(bytes) {
        Some(Field::Rest)
    } else {
        None
    }
}
