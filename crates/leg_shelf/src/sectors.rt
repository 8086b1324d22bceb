ghost use Rattle.std.specs.Prelude.{◌≡◌, ◌+◌, ◌*◌, ◌≤◌, ◌<◌, ◌^◌, ◌++◌, vec_len, drop, length, IfOk};
ghost use Rattle.leg_shelf.specs.Images.{sector_at, sectors_in, bytes_of};

use mdc_types::Sector;
use std::alloc::{AllocError, Global};

fn sector_at(bytes: &[u8], k: usize) -> Sector
    requires { 512 * k + 512 ≤ length bytes.now }
    ensures { result ≡ sector_at bytes.now k }
{
    let mut sector = Sector::ZERO;
    sector.bytes.copy_from_slice(&bytes[512 * k..512 * k + 512]);
    sector
}

/// The whole sectors of the bytes, at most the first 2^32 - 1.
pub(crate) fn sectors_in(alloc: Global, bytes: &[u8]) -> Result<Vec<Sector>, AllocError>
    ensures sectors { IfOk result (λ sectors. sectors.items ≡ sectors_in bytes.now) }
    ensures count { IfOk result (λ sectors. vec_len sectors < 2 ^ 32) }
{
    let count = (bytes.len() / 512).min(u32::MAX as usize);
    let mut sectors = Vec::with_capacity(alloc, count)?;
    for k in 0..count {
        sectors.push(sector_at(bytes, k))?;
    }
    Ok(sectors)
}

/// Adds the bytes of the sectors.
pub(crate) fn add_sectors(bytes: &mut Vec<u8>, sectors: &[Sector]) -> Result<(), AllocError>
    ensures { IfOk result (λ _. bytes.new.items ≡ bytes.old.items ++ bytes_of sectors.now) }
{
    for sector in sectors {
        bytes.extend_from_slice(&sector.bytes)?;
    }
    Ok(())
}

/// The bytes from byte `n` on, none where there are fewer.
pub(crate) fn past(bytes: &[u8], n: usize) -> &[u8]
    ensures { result.now ≡ drop n bytes.now }
{
    bytes.get(n..).unwrap_or(&[])
}
