ghost use Rattle.std.specs.Prelude.{◌≡◌, length};
ghost use Rattle.md_superblock.specs.Superblock.{IsSuper, IsWritten};
ghost use Rattle.md_superblock.specs.Arrays.{spelled};
ghost use Rattle.md_superblock.specs.Pieces.{with_pieces, array_pieces, device_pieces, state_pieces, role_pieces};

use crate::fields::device_uuid;
use crate::layout::{MAGIC, checksum, put_bytes, put_u16, put_u32, put_u64};
use crate::place;
use crate::superblock::Super;
use mdc_types::{Role, Sector};

// Writes the fields that all legs share, in bytes 0 to 127.
fn put_array(b: &mut Sector, s: &Super)
    ensures { b.new.bytes ≡ with_pieces b.old.bytes (array_pieces s.now) }
{
    put_u32(b, place::MAGIC, MAGIC);
    put_u32(b, place::MAJOR_VERSION, 1);
    put_u32(b, place::FEATURE_MAP, 1);
    put_bytes(b, place::ARRAY_UUID, &s.uuid);
    put_bytes(b, place::NAME, &s.name);
    put_u32(b, place::LEVEL, 1);
    put_u64(b, place::SIZE, u64::from(s.sectors));
    put_u32(b, place::RAID_DISKS, u32::from(s.geometry_legs));
    put_u32(b, place::BITMAP_OFFSET, 8);
}

// Writes the fields of this leg, in bytes 128 to 191.
fn put_device(b: &mut Sector, s: &Super)
    ensures { b.new.bytes ≡ with_pieces b.old.bytes (device_pieces s.now) }
{
    put_u64(b, place::DATA_OFFSET, if s.version == 2 { 272 } else { 80 });
    put_u64(b, place::DATA_SIZE, u64::from(s.room));
    put_u64(b, place::SUPERBLOCK_OFFSET, 8);
    put_u32(b, place::DEVICE_NUMBER, u32::from(s.device));
    put_bytes(b, place::DEVICE_UUID, &device_uuid(s.uuid, s.device));
}

// Writes the fields of the array's state, but for the checksum.
fn put_state(b: &mut Sector, s: &Super)
    ensures { b.new.bytes ≡ with_pieces b.old.bytes (state_pieces s.now) }
{
    put_u64(b, place::EVENTS, s.events);
    put_u32(b, place::MAX_DEV, 8);
}

// Writes the roles of the eight devices.
fn put_roles(b: &mut Sector, legs: &[Role; 8])
    ensures bytes { b.new.bytes ≡ with_pieces b.old.bytes (role_pieces (record { legs = legs.now }) 8) }
    ensures devices { length legs.now ≡ 8 }
{
    for l in 0..8 {
        put_u16(b, place::ROLES + 2 * l, legs[l].code(l as u8));
    }
}

/// The sector of a superblock whose fields are in their ranges, with its checksum. It is the only one
/// that spells this superblock.
pub fn write_super(s: &Super) -> Sector
    requires { IsSuper s.now }
    ensures bytes { result.bytes ≡ spelled s.now }
    ensures grammar { IsWritten s.now result.bytes }
{
    let mut b = Sector::ZERO;
    put_array(&mut b, s);
    put_device(&mut b, s);
    put_state(&mut b, s);
    put_roles(&mut b, &s.roles.legs);
    let sum = checksum(&b.bytes);
    put_u32(&mut b, place::CHECKSUM, sum);
    b
}
