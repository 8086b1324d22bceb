ghost use Rattle.std.specs.Prelude.{◌≡◌, ◌≤◌, ◌<◌};
ghost use Rattle.image_faults.specs.Sizes.{size_fault, length_fault, chunk_in, sizes_of, file_size};

use crate::ImageFault;
use byteorder::{ByteOrder, LittleEndian};
use md_superblock::Super;
use mdc_types::{GeomError, Geometry, Sector};

/// What is wrong with a file before it is opened: `Missing` where there is none, and `Short` where it
/// has fewer than 40,960 bytes.
pub fn size_fault(size: Option<u64>) -> Option<ImageFault>
    ensures { result ≡ size_fault size }
{
    match size {
        None => Some(ImageFault::Missing),
        Some(size) if size < 40_960 => Some(ImageFault::Short),
        Some(_) => None,
    }
}

// The bytes of an image, by its superblock.
fn file_size(s: &Super) -> u64
    ensures { result ≡ file_size s.now }
{
    let offset = if s.version == 2 { 272 } else { 80 };
    512 * (offset + u64::from(s.room))
}

/// Whether the number of bytes is that of the superblock: `Short` where they are fewer, and `Long`
/// where they are more.
pub fn length_fault(s: &Super, size: u64) -> Option<ImageFault>
    ensures { result ≡ length_fault s.now size }
{
    let wanted = file_size(s);
    if size < wanted {
        Some(ImageFault::Short)
    } else if wanted < size {
        Some(ImageFault::Long)
    } else {
        None
    }
}

/// The chunk of an array in sectors, as the first page of its slot 0 says it.
pub fn chunk_in(page: &Sector) -> u32
    ensures { result ≡ chunk_in page.now.bytes }
{
    LittleEndian::read_u32(&page.bytes[52..]) / 512
}

/// The sizes of an array with this superblock and chunk.
pub fn sizes_of(s: &Super, chunk: u32) -> Result<Geometry, GeomError>
    ensures { result ≡ sizes_of s.now chunk }
{
    if s.version == 2 {
        Geometry::second(s.geometry_legs, s.sectors, s.room, chunk)
    } else {
        Geometry::grown(s.geometry_legs, s.sectors, s.room, chunk)
    }
}
