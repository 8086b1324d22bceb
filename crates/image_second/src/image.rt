ghost use Rattle.std.specs.Prelude.{◌≡◌, ◌<◌, IfErr, IfOk, true};
ghost use Rattle.mdc_types.specs.Faults.{HasCause};
ghost use Rattle.mdc_types.specs.Geometry.{length_of};
ghost use Rattle.md_superblock.specs.Arrays.{spelled};
ghost use Rattle.md_superblock.specs.Superblock.{IsSuper};
ghost use Rattle.image_faults.specs.Legs.{is_leg_failure};
ghost use Rattle.image_second.specs.Second.{GivesSecond, IsReadable, IsMade, IsMakeEnd, read_of, second_head, second_sizes, second_super};

use crate::pages::slot_page;
use crate::sizes::second_of;
use image_faults::{LegEnd, LegImage};
use leg_store::LegDev;
use md_superblock::{Super, write_super};
use mdc_types::{Failed, Geometry, Sector};
use std::alloc::Global;

const SUPERBLOCK: u32 = 8;

const SLOTS: u32 = 16;

// Where the data begins in image version 2.
const DATA: u32 = 272;

// The superblock of version 2.
fn second_super(s: &Super) -> Sector
    requires { IsSuper s.now }
    ensures { result.bytes ≡ spelled (second_super s.now) }
{
    let mut second = *s;
    second.version = 2;
    write_super(&second)
}

// What stands before the data.
fn head_sector(image: &LegImage, second: &Geometry, at: u32) -> Sector
    requires before { at < 272 }
    requires second { second.now ≡ second_sizes image.now.geometry }
    requires image { IsReadable (read_of image.now) }
    ensures { result ≡ second_head (read_of image.now) at }
{
    if at == SUPERBLOCK {
        second_super(&image.superblock)
    } else if at >= SLOTS {
        let page = at - SLOTS;
        slot_page(
            second,
            &image.superblock.uuid,
            &image.slots,
            (page / 16) as usize,
            page % 16,
        )
    } else {
        Sector::ZERO
    }
}

// What stands at a sector of the new image.
fn image_sector<L: LegDev>(
    image: &LegImage,
    second: &Geometry,
    leg: &mut L,
    at: u32,
) -> Result<Sector, Failed>
    requires within { at < length_of (second_sizes image.now.geometry) }
    requires second { second.now ≡ second_sizes image.now.geometry }
    requires image { IsReadable (read_of image.now) }
    requires size { L.size leg.old ≡ length_of image.now.geometry }
    ensures value { IfOk result (λ v. GivesSecond (read_of image.now) (L.contents leg.old) at v) }
    ensures contents { L.contents leg.new ≡ L.contents leg.old }
    ensures size { L.size leg.new ≡ L.size leg.old }
    ensures cause { HasCause (λ e. true) (L.faults leg.old) (L.faults leg.new) result }
{
    if at < DATA {
        Ok(head_sector(image, second, at))
    } else {
        leg.read(at - DATA + image.geometry.data_offset())
    }
}

/// The bytes of the image of version 2 that is made of a leg's image, of which this was read: its
/// superblock but for the version, the sets of its slots, with empty slots after those of version 1, and
/// its data, each sector of which is read once.
///
/// `Failed` only where the leg's count of faults rose, and `Memory`.
pub fn second_image<L: LegDev>(
    alloc: Global,
    image: &LegImage,
    leg: &mut L,
) -> Result<Vec<u8>, LegEnd>
    requires image { IsReadable (read_of image.now) }
    requires size { L.size leg.old ≡ length_of image.now.geometry }
    ensures bytes { IfOk result (λ bytes. IsMade (read_of image.now) (L.contents leg.old) bytes.items) }
    ensures end { IfErr result IsMakeEnd }
    ensures contents { L.contents leg.new ≡ L.contents leg.old }
    ensures size { L.size leg.new ≡ L.size leg.old }
    ensures cause { HasCause is_leg_failure (L.faults leg.old) (L.faults leg.new) result }
{
    let second = second_of(&image.geometry);
    let length = second.length();
    let mut bytes = Vec::with_capacity(alloc, 512 * length as usize)?;
    for at in 0..length {
        let sector = image_sector(image, &second, leg, at)?;
        bytes.extend_from_slice(&sector.bytes)?;
    }
    Ok(bytes)
}
