ghost use Rattle.std.specs.Prelude.{◌≡◌, IfOk, None};
ghost use Rattle.std.specs.Result.{result_err};
ghost use Rattle.mdc_types.specs.Sectors.{IsSector};
ghost use Rattle.md_superblock.specs.Superblock.{IsSuper, IsWritten, roles_of, super_of};
ghost use Rattle.md_superblock.specs.Faults.{head_fault, range_fault, fault_of};

use crate::faults::{Field, SuperFault};
use crate::fields::{array_fault, device_fault, state_fault};
use crate::layout::{MAGIC, bytes_at, checksum, u32_at, u64_at};
use crate::place;
use crate::roles::{role_fault, role_or_spare};
use crate::superblock::Super;
use mdc_types::{Roles, Sector};

// The first fault of the magic number, the version, the checksum and the level.
#[tactic(auto, unfolding(crate::specs::Faults::head_fault))]
fn head_fault(bytes: &[u8; 512]) -> Option<SuperFault>
    ensures { result ≡ head_fault bytes.now }
{
    let magic = u32_at(bytes, place::MAGIC);
    let version = u32_at(bytes, place::MAJOR_VERSION);
    let stored = u32_at(bytes, place::CHECKSUM);
    let found = checksum(bytes);
    let level = u32_at(bytes, place::LEVEL);
    if magic != MAGIC {
        Some(SuperFault::Magic(magic))
    } else if version != 1 {
        Some(SuperFault::Version(version))
    } else if stored != found {
        Some(SuperFault::Sum { stored, found })
    } else if level != 1 {
        Some(SuperFault::Level(level))
    } else {
        None
    }
}

// The first other field that is out of its range.
#[tactic(auto, using(crate::proofs::NoFault::legs_fit))]
fn range_fault(bytes: &[u8; 512]) -> Option<Field>
    ensures { result ≡ range_fault bytes.now }
{
    if let Some(field) = array_fault(bytes) {
        return Some(field);
    }
    if let Some(field) = device_fault(bytes) {
        return Some(field);
    }
    state_fault(bytes)
}

// The first fault of all.
#[tactic(auto, unfolding(crate::specs::Faults::fault_of))]
fn fault(bytes: &[u8; 512]) -> Option<SuperFault>
    ensures { result ≡ fault_of bytes.now }
{
    if let Some(fault) = head_fault(bytes) {
        return Some(fault);
    }
    if let Some(field) = range_fault(bytes) {
        return Some(SuperFault::Range(field));
    }
    match role_fault(bytes) {
        Some(l) => Some(SuperFault::Role(l)),
        None => None,
    }
}

// What the fields of a sector without a fault say.
#[tactic(auto, unfolding(crate::specs::Superblock::super_of))]
fn super_of(bytes: &[u8; 512]) -> Super
    requires { fault_of bytes.now ≡ None }
    ensures value { result ≡ super_of bytes.now }
    ensures sector { IsSector bytes.now }
{
    Super {
        geometry_legs: u32_at(bytes, place::RAID_DISKS) as u8,
        sectors: u64_at(bytes, place::SIZE) as u32,
        room: u64_at(bytes, place::DATA_SIZE) as u32,
        version: if u64_at(bytes, place::DATA_OFFSET) == 272 {
            2
        } else {
            1
        },
        name: bytes_at(bytes, place::NAME),
        uuid: bytes_at(bytes, place::ARRAY_UUID),
        device: u32_at(bytes, place::DEVICE_NUMBER) as u8,
        events: u64_at(bytes, place::EVENTS),
        roles: roles_of(bytes),
    }
}

fn roles_of(bytes: &[u8; 512]) -> Roles
    ensures { result ≡ roles_of bytes.now }
{
    let role = |l| role_or_spare(bytes, l);
    Roles {
        legs: [
            role(0),
            role(1),
            role(2),
            role(3),
            role(4),
            role(5),
            role(6),
            role(7),
        ],
    }
}

/// Reads a superblock. The fault is the first in this order: the magic number, the version, the
/// checksum, the level, the first other field of the table that is out of its range, a byte that no
/// field has and that isn't 0, the first device whose 16 bits are no role of it, and that no device
/// works.
pub fn read_super(b: &Sector) -> Result<Super, SuperFault>
    ensures fault { result_err result ≡ fault_of b.now.bytes }
    ensures value { IfOk result (λ s. s ≡ super_of b.now.bytes) }
    ensures found { IfOk result (λ s. IsSuper s × IsWritten s b.now.bytes) }
{
    match fault(&b.bytes) {
        Some(fault) => Err(fault),
        None => Ok(super_of(&b.bytes)),
    }
}
