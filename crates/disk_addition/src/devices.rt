ghost use Rattle.std.specs.Prelude.{◌≡◌, ◌↔◌, ℕ, Some, IfOk};
ghost use Rattle.mdc_types.specs.Names.{device_uuid};
ghost use Rattle.disk_addition.specs.Names.{leg_named, IsNamed};

use indexmap::IndexMap;
use mdc_types::LegId;
use std::alloc::{AllocError, Global};
use std::marker::Model;

/// The name of a leg's device: the uuid of its array, with the last byte replaced by the leg. This rule is
/// this project's own.
pub fn device_uuid(uuid: &[u8; 16], l: LegId) -> [u8; 16]
    ensures { result ≡ device_uuid uuid.now l }
{
    let mut name = *uuid;
    name[15] = l;
    name
}

/// The devices of an array, by their names. `find` takes no memory.
///
/// Contracts see the array's uuid and its number of legs.
#[derive(Drop)]
pub struct Devices {
    uuid: [u8; 16],
    legs: u8,
    by_name: IndexMap<[u8; 16], LegId>,
}

impl Model for Devices {
    ghost use Rattle.std.specs.Prelude.{◌≡◌, List, ℕ, length, nat_eq};
    ghost use Rattle.std.specs.Cmp.Lexicographic.{pointwise};
    ghost use Rattle.indexmap.specs.IndexMap.{get};
    ghost use Rattle.disk_addition.specs.Names.{Names, leg_named};

    ghost Value = { Names };

    ghost view = { λ d. record { uuid = d.uuid; legs = d.legs } };

    ghost invariant = { λ d. (length d.uuid ≡ 16) × ((name : List ℕ) → get (pointwise nat_eq) d.by_name name ≡ leg_named (record { uuid = d.uuid; legs = d.legs }) name) };
}

impl Devices {
    /// The table of an array with this uuid and so many legs.
    pub fn open(alloc: Global, legs: u8, uuid: &[u8; 16]) -> Result<Devices, AllocError>
        ensures { IfOk result (λ d. d ≡ record { uuid = uuid.now; legs = legs }) }
    {
        let mut by_name = IndexMap::with_capacity(alloc, legs as usize)?;
        for l in 0..legs {
            by_name.insert(device_uuid(uuid, l), l)?;
        }
        Ok(Devices {
            uuid: *uuid,
            legs,
            by_name,
        })
    }

    /// The leg whose device has this name. None where no leg of the array has it.
    pub fn find(&self, uuid: &[u8; 16]) -> Option<LegId>
        ensures leg { result ≡ leg_named self.now uuid.now }
        ensures exact { (l : ℕ) → (result ≡ Some l) ↔ IsNamed self.now uuid.now l }
    {
        self.by_name.get(uuid).copied()
    }
}
