ghost use Rattle.std.specs.Prelude.{◌≡◌, ◌≤◌, ◌<◌, ◌^◌, ◌-◌, false, IfOk, map, replicate, ◌∷◌, []};
ghost use Rattle.mdc_types.specs.Bits.{has_bit};
ghost use Rattle.mdc_types.specs.Geometry.{nodes_of};
ghost use Rattle.cluster_model.specs.Opening.{header_at, header_role, array_of, IsOrigin};
ghost use Rattle.mdc_types.specs.Roles.{eight};
ghost use Rattle.mdc_types.specs.Sectors.{zero_sector};
ghost use Rattle.md_superblock.specs.Arrays.{array_of as array_in};

use md_superblock::Identity;
use mdc_types::{Geometry, LegId, NodeId, Role, Roles, Sector, has_leg, has_node};
use std::alloc::{AllocError, Global};
use std::marker::Model;

/// What an array opens with.
#[derive(Drop)]
pub struct Opening {
    geometry: Geometry,
    name: [u8; 32],
    uuid: [u8; 16],
    members: u16,
    pending: u16,
    warm: bool,
    roles: Roles,
    events: u64,
    base: Vec<Vec<Sector>>,
}

impl Model for Opening {
    ghost use Rattle.std.specs.Prelude.{map};
    ghost use Rattle.cluster_model.specs.Opening.{Origin};

    ghost Value = { Origin };

    ghost view = { λ o. record {
      sizes = o.geometry;
      name = o.name;
      uuid = o.uuid;
      members = o.members;
      pending = o.pending;
      warm = o.warm;
      roles = o.roles;
      events = o.events;
      base = map (λ values. values.items) o.base.items;
    } };
}

const NAME: [u8; 32] = *b"array\0\0\0\0\0\0\0\0\0\0\0\0\0\0\0\0\0\0\0\0\0\0\0\0\0\0\0";

fn header_role(legs: u8, spares: u8, l: LegId) -> Role
    requires { l < 8 }
    ensures { result ≡ header_role legs spares l }
{
    if l < legs && !has_leg(spares, l) {
        Role::Working
    } else {
        Role::Spare
    }
}

fn header_roles(legs: u8, spares: u8) -> Roles
    ensures { result ≡ eight (header_role legs spares) }
{
    Roles {
        legs: [
            header_role(legs, spares, 0),
            header_role(legs, spares, 1),
            header_role(legs, spares, 2),
            header_role(legs, spares, 3),
            header_role(legs, spares, 4),
            header_role(legs, spares, 5),
            header_role(legs, spares, 6),
            header_role(legs, spares, 7),
        ],
    }
}

// One list of candidates for each sector: zero alone.
fn zero_base(alloc: Global, sectors: u32) -> Result<Vec<Vec<Sector>>, AllocError>
    ensures { IfOk result (λ base.
        map (λ values. values.items) base.items ≡ replicate sectors (zero_sector ∷ [])) }
{
    let mut base = Vec::with_capacity(alloc, sectors as usize)?;
    for s in 0..sectors {
        base.push(vec![in alloc; Sector::ZERO]?)?;
    }
    Ok(base)
}

impl Opening {
    /// The opening of a script's header: the nodes below `nodes` are members, all data sectors are
    /// zero, and the legs work, but for the spares, which have one bit each.
    pub fn header(
        alloc: Global,
        geometry: Geometry,
        nodes: u8,
        warm: bool,
        spares: u8,
    ) -> Result<Opening, AllocError>
        requires nodes { nodes ≤ nodes_of geometry }
        requires first { has_bit spares 0 ≡ false }
        ensures value { IfOk result (λ o. o ≡ header_at geometry nodes warm spares) }
        ensures origin { IfOk result (λ o. IsOrigin o) }
    {
        // The room is what tells that the sizes are within their bounds.
        let _room = geometry.room();
        Opening::of_header(alloc, geometry, nodes, warm, spares)
    }

    fn of_header(
        alloc: Global,
        geometry: Geometry,
        nodes: u8,
        warm: bool,
        spares: u8,
    ) -> Result<Opening, AllocError>
        requires { nodes ≤ nodes_of geometry }
        ensures { IfOk result (λ o. o ≡ header_at geometry nodes warm spares) }
    {
        let base = zero_base(alloc, geometry.room())?;
        let members = ((1u32 << nodes) - 1) as u16;
        Ok(Opening {
            geometry,
            name: NAME,
            uuid: [0; 16],
            members,
            pending: 0,
            warm,
            roles: header_roles(geometry.legs(), spares),
            events: 1,
            base,
        })
    }

    /// The opening that images have: nobody is a member. `pending` has one bit for each node whose slot
    /// is pending, `roles` and `events` are those of the superblocks, and `base` has for each data sector
    /// the values that the working legs have there.
    pub fn of_images(
        geometry: Geometry,
        name: [u8; 32],
        uuid: [u8; 16],
        pending: u16,
        roles: Roles,
        events: u64,
        base: Vec<Vec<Sector>>,
    ) -> Opening
        ensures { result ≡ record {
          sizes = geometry;
          name = name;
          uuid = uuid;
          members = 0;
          pending = pending;
          warm = false;
          roles = roles;
          events = events;
          base = map (λ values. values.items) base.items;
        } }
    {
        Opening {
            geometry,
            name,
            uuid,
            members: 0,
            pending,
            warm: false,
            roles,
            events,
            base,
        }
    }

    /// For each data sector, the values that the working legs may have there.
    pub fn base(&self) -> &[Vec<Sector>]
        ensures { map (λ values. values.items) result.now ≡ self.now.base }
    {
        self.base.as_slice()
    }

    /// The sizes of the array.
    pub fn geometry(&self) -> Geometry
        ensures { result ≡ self.now.sizes }
    {
        self.geometry
    }

    /// The roles of the legs.
    pub fn roles(&self) -> Roles
        ensures { result ≡ self.now.roles }
    {
        self.roles
    }

    /// Whether the node is a member from the start.
    pub fn is_member(&self, n: NodeId) -> bool
        requires { n < 16 }
        ensures { result ≡ has_bit self.now.members n }
    {
        has_node(self.members, n)
    }

    /// Whether the bits of the members' bitmaps are all set.
    pub fn warm(&self) -> bool
        ensures { result ≡ self.now.warm }
    {
        self.warm
    }

    /// The events number of the superblocks.
    pub fn events(&self) -> u64
        ensures { result ≡ self.now.events }
    {
        self.events
    }

    /// What the superblocks of its legs share.
    pub fn identity(&self) -> Identity
        ensures { array_in result ≡ array_of self.now }
    {
        Identity {
            geometry: self.geometry,
            name: self.name,
            uuid: self.uuid,
        }
    }

    /// The uuid of the array.
    pub fn uuid(&self) -> [u8; 16]
        ensures { result ≡ self.now.uuid }
    {
        self.uuid
    }

    /// The nodes that are members, one bit each.
    pub fn members(&self) -> u16
        ensures { result ≡ self.now.members }
    {
        self.members
    }

    /// The nodes whose slots are pending, one bit each.
    pub fn pending(&self) -> u16
        ensures { result ≡ self.now.pending }
    {
        self.pending
    }
}
