ghost use Rattle.std.specs.Prelude.{◌≡◌, ◌<◌, not, is_some};
ghost use Rattle.dlm_modes.specs.First.{first_such};
ghost use Rattle.md_superblock.specs.Superblock.{role_number, role_at, role_or_spare};
ghost use Rattle.md_superblock.specs.Faults.{has_role, is_working_at, role_fault};

use crate::layout::{u16_at, u32_at};
use crate::place;
use mdc_types::{LegId, Role};

// The 16 bits of a device's role.
fn role_number(bytes: &[u8; 512], l: LegId) -> u16
    requires { l < 8 }
    ensures { result ≡ role_number bytes.now l }
{
    u16_at(bytes, place::ROLES + 2 * l as usize)
}

/// The role of a device. A spare where its 16 bits are none.
pub(crate) fn role_or_spare(bytes: &[u8; 512], l: LegId) -> Role
    requires { l < 8 }
    ensures { result ≡ role_or_spare bytes.now l }
{
    Role::of_code(l, role_number(bytes, l)).unwrap_or(Role::Spare)
}

// Whether the 16 bits of a device are a role of it. From raid disks on only spare is.
fn has_role(bytes: &[u8; 512], l: LegId) -> bool
    requires { l < 8 }
    ensures { result ≡ has_role bytes.now l }
{
    let code = role_number(bytes, l);
    if u32::from(l) < u32_at(bytes, place::RAID_DISKS) {
        Role::of_code(l, code).is_some()
    } else {
        code == 0xffff
    }
}

fn first_without_role(bytes: &[u8; 512]) -> Option<LegId>
    ensures { result ≡ first_such (λ l. not (has_role bytes.now l)) 0 8 }
{
    for l in 0..8 {
        if !has_role(bytes, l) {
            return Some(l);
        }
    }
    None
}

fn is_working(bytes: &[u8; 512], l: LegId) -> bool
    requires { l < 8 }
    ensures { result ≡ is_working_at bytes.now l }
{
    role_number(bytes, l) == u16::from(l)
}

fn has_working(bytes: &[u8; 512]) -> bool
    ensures { result ≡ is_some (first_such (is_working_at bytes.now) 0 8) }
{
    for l in 0..8 {
        if is_working(bytes, l) {
            return true;
        }
    }
    false
}

/// The first device that has no role, or 8 where none works.
pub(crate) fn role_fault(bytes: &[u8; 512]) -> Option<LegId>
    ensures { result ≡ role_fault bytes.now }
{
    if let Some(l) = first_without_role(bytes) {
        return Some(l);
    }
    if has_working(bytes) { None } else { Some(8) }
}
