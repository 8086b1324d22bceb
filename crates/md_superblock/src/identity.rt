ghost use Rattle.std.specs.Prelude.{◌≡◌, IfSome};
ghost use Rattle.std.specs.Option.{option_map};
ghost use Rattle.md_superblock.specs.Superblock.{IsSuper};
ghost use Rattle.md_superblock.specs.Arrays.{array_of, said, super_for, is_of, spelled, says_in, Holds};

use crate::reading::read_super;
use crate::superblock::Super;
use crate::writing::write_super;
use mdc_types::{Geometry, LegId, Roles, Sector};

/// What the superblocks of all legs of one array share. Its size may change, and stands in the state.
#[derive(Clone, Copy)]
pub struct Identity {
    pub geometry: Geometry,
    /// The array's name: 1 to 31 ASCII letters, digits or `_`, then zeros.
    pub name: [u8; 32],
    /// The array's uuid.
    pub uuid: [u8; 16],
}

/// The state of an array, as a superblock says it.
#[derive(Clone, Copy, PartialEq, Eq, Debug)]
pub struct ArrayState {
    /// The events number, 1 to 2^63.
    pub events: u64,
    /// The roles of the legs. One works at least, and there is none past the legs.
    pub roles: Roles,
    /// The number of data sectors of the array, 1 to the room.
    pub size: u32,
}

impl Identity {
    /// The superblock of leg `l` with this state.
    pub fn superblock(&self, l: LegId, state: &ArrayState) -> Super
        ensures { result ≡ super_for (array_of self.now) l (said state.now) }
    {
        Super {
            geometry_legs: self.geometry.legs(),
            sectors: state.size,
            room: self.geometry.room(),
            version: self.geometry.version(),
            name: self.name,
            uuid: self.uuid,
            device: l,
            events: state.events,
            roles: state.roles,
        }
    }

    /// The sector that says this state on leg `l`.
    pub fn write(&self, l: LegId, state: &ArrayState) -> Sector
        requires { IsSuper (super_for (array_of self.now) l (said state.now)) }
        ensures { result.bytes ≡ spelled (super_for (array_of self.now) l (said state.now)) }
    {
        write_super(&self.superblock(l, state))
    }

    // Whether the superblock is one of this array, on leg `l`.
    fn has(&self, l: LegId, s: &Super) -> bool
        ensures { result ≡ is_of (array_of self.now) l s.now }
    {
        s.geometry_legs == self.geometry.legs()
            && s.room == self.geometry.room()
            && s.version == self.geometry.version()
            && s.name == self.name
            && s.uuid == self.uuid
            && s.device == l
    }

    /// The state that the sector says, where it is the superblock of leg `l` of this array. None where
    /// it spells no superblock, one of another array or geometry, or another leg's.
    pub fn read(&self, l: LegId, b: &Sector) -> Option<ArrayState>
        ensures says { option_map said result ≡ says_in (array_of self.now) l b.now.bytes }
        ensures found { IfSome result (λ state. Holds (array_of self.now) l (said state) b.now.bytes) }
    {
        match read_super(b) {
            Ok(s) => {
                if self.has(l, &s) {
                    Some(ArrayState {
                        events: s.events,
                        roles: s.roles,
                        size: s.sectors,
                    })
                } else {
                    None
                }
            }
            Err(_) => None,
        }
    }
}
