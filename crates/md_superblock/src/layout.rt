ghost use Rattle.std.specs.Prelude.{◌≡◌, ◌≤◌, ◌+◌, ◌*◌, length, slice_range};
ghost use Rattle.mdc_types.specs.Sectors.{IsSector};
ghost use Rattle.md_superblock.specs.Layout.{number_at, bytes_of, with_bytes, checksum_of, is_named};

use crate::place;
use byteorder::{ByteOrder, LittleEndian};
use mdc_types::Sector;

/// The magic number of md's superblocks.
pub(crate) const MAGIC: u32 = 0xa92b_4efc;

/// The number of 16 bits at a byte of the sector.
pub(crate) fn u16_at(bytes: &[u8; 512], at: usize) -> u16
    requires { at + 2 ≤ 512 }
    ensures { result ≡ number_at bytes.now at 2 }
{
    LittleEndian::read_u16(&bytes[at..])
}

/// The number of 32 bits at a byte of the sector.
pub(crate) fn u32_at(bytes: &[u8; 512], at: usize) -> u32
    requires { at + 4 ≤ 512 }
    ensures { result ≡ number_at bytes.now at 4 }
{
    LittleEndian::read_u32(&bytes[at..])
}

/// The number of 64 bits at a byte of the sector.
pub(crate) fn u64_at(bytes: &[u8; 512], at: usize) -> u64
    requires { at + 8 ≤ 512 }
    ensures { result ≡ number_at bytes.now at 8 }
{
    LittleEndian::read_u64(&bytes[at..])
}

/// The `N` bytes at a byte of the sector.
pub(crate) fn bytes_at<const N: usize>(bytes: &[u8; 512], at: usize) -> [u8; N]
    requires { at + N ≤ 512 }
    ensures { result ≡ slice_range bytes.now at (at + N) }
{
    let mut part = [0; N];
    part.copy_from_slice(&bytes[at..at + N]);
    part
}

/// Writes a number of 16 bits.
pub(crate) fn put_u16(b: &mut Sector, at: usize, n: u16)
    requires { at + 2 ≤ 512 }
    ensures { b.new.bytes ≡ with_bytes b.old.bytes at (bytes_of 2 n) }
{
    LittleEndian::write_u16(&mut b.bytes[at..], n);
}

/// Writes a number of 32 bits.
pub(crate) fn put_u32(b: &mut Sector, at: usize, n: u32)
    requires { at + 4 ≤ 512 }
    ensures { b.new.bytes ≡ with_bytes b.old.bytes at (bytes_of 4 n) }
{
    LittleEndian::write_u32(&mut b.bytes[at..], n);
}

/// Writes a number of 64 bits.
pub(crate) fn put_u64(b: &mut Sector, at: usize, n: u64)
    requires { at + 8 ≤ 512 }
    ensures { b.new.bytes ≡ with_bytes b.old.bytes at (bytes_of 8 n) }
{
    LittleEndian::write_u64(&mut b.bytes[at..], n);
}

/// Writes bytes.
pub(crate) fn put_bytes(b: &mut Sector, at: usize, bytes: &[u8])
    requires { at + length bytes.now ≤ 512 }
    ensures { b.new.bytes ≡ with_bytes b.old.bytes at bytes.now }
{
    b.bytes[at..at + bytes.len()].copy_from_slice(bytes);
}

/// The checksum of the bytes.
pub(crate) fn checksum(bytes: &[u8; 512]) -> u32
    ensures value { result ≡ checksum_of bytes.now }
    ensures sector { IsSector bytes.now }
{
    let mut sum: u64 = 0;
    for k in 0..68 {
        if 4 * k != place::CHECKSUM {
            sum += u64::from(u32_at(bytes, 4 * k));
        }
    }
    ((sum % 0x1_0000_0000 + sum / 0x1_0000_0000) % 0x1_0000_0000) as u32
}

/// The checksum of a superblock's bytes: the sum of the 68 words of 32 bits in bytes 0 to 271, with
/// the checksum's own word taken as 0, whose high 32 bits are added to the low ones. Of that the low
/// 32 bits are kept. It is that of `calc_sb_1_csum` in the kernel's `drivers/md/md.c` at a max_dev of
/// 8, and is given whatever else the bytes say.
pub fn sum_of(b: &Sector) -> u32
    ensures { result ≡ checksum_of b.now.bytes }
{
    checksum(&b.bytes)
}

// Where each field begins, and its size in bytes.
const FIELDS: [(usize, usize); 18] = [
    (place::MAGIC, 4),
    (place::MAJOR_VERSION, 4),
    (place::FEATURE_MAP, 4),
    (place::ARRAY_UUID, 16),
    (place::NAME, 32),
    (place::LEVEL, 4),
    (place::SIZE, 8),
    (place::RAID_DISKS, 4),
    (place::BITMAP_OFFSET, 4),
    (place::DATA_OFFSET, 8),
    (place::DATA_SIZE, 8),
    (place::SUPERBLOCK_OFFSET, 8),
    (place::DEVICE_NUMBER, 4),
    (place::DEVICE_UUID, 16),
    (place::EVENTS, 8),
    (place::CHECKSUM, 4),
    (place::MAX_DEV, 4),
    (place::ROLES, 16),
];

/// Whether a field has this byte of the sector.
#[tactic(auto, unfolding(crate::specs::Layout::is_named))]
pub(crate) fn is_named(i: usize) -> bool
    ensures { result ≡ is_named i }
{
    FIELDS.iter().any(|(at, size)| *at <= i && i < at + size)
}
