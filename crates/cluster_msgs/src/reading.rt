ghost use Rattle.std.specs.Prelude.{◌≡◌, ◌^◌, ◌↔◌, length, IsTrue};
ghost use Rattle.cluster_msgs.specs.Layout.{no_fields};
ghost use Rattle.cluster_msgs.specs.Messages.{kind_of, codes_of, fields_of, IsUuid, HasArrays, IsInRange, IsMsg, Spells};
ghost use Rattle.cluster_msgs.specs.Reading.{below, roles_of, state_of, metadata_of, capacity_of, body_of, msg_of, message_in};

use crate::fields::Fields;
use crate::ranges::{narrow, range_of};
use crate::{Body, Msg};
use dlm_modes::Block;
use mdc_types::{LegId, NodeId, Range, Role, Roles};

fn no_fields(kind: u8, slot: NodeId) -> Fields
    ensures { result ≡ no_fields kind slot }
{
    Fields {
        kind: kind as u32,
        slot: slot as u32,
        first: 0,
        second: 0,
        leg: 0,
        uuid: [0; 16],
        roles: [0; 8],
    }
}

fn codes_of(legs: &[Role; 8]) -> [u16; 8]
    ensures { result ≡ codes_of (record { legs = legs.now }) }
{
    [
        legs[0].code(0),
        legs[1].code(1),
        legs[2].code(2),
        legs[3].code(3),
        legs[4].code(4),
        legs[5].code(5),
        legs[6].code(6),
        legs[7].code(7),
    ]
}

fn with_state(none: Fields, events: u64, legs: &[Role; 8], size: u32) -> Fields
    ensures fields { result ≡ record none { first = events; second = size; roles = codes_of (record { legs = legs.now }) } }
    ensures eight { length legs.now ≡ 8 }
{
    Fields {
        first: events,
        second: size as u64,
        roles: codes_of(legs),
        ..none
    }
}

fn with_device(none: Fields, leg: LegId, uuid: &[u8; 16]) -> Fields
    ensures fields { result ≡ record none { leg = leg; uuid = uuid.now } }
    ensures uuid { IsUuid uuid.now }
{
    Fields {
        leg: leg as u32,
        uuid: *uuid,
        ..none
    }
}

fn fields_of(m: &Msg) -> Fields
    ensures fields { result ≡ fields_of m.now }
    ensures arrays { HasArrays m.now.body }
{
    let none = no_fields(m.kind(), m.slot);
    match &m.body {
        Body::Metadata {
            events,
            roles,
            size,
        }
        | Body::Capacity {
            events,
            roles,
            size,
        } => with_state(none, *events, &roles.legs, *size),
        Body::Resyncing(r) => Fields {
            first: r.lo as u64,
            second: r.hi as u64,
            ..none
        },
        Body::NewDisk { leg, uuid } => with_device(none, *leg, uuid),
        Body::Remove { leg } | Body::ReAdd { leg } => Fields {
            leg: *leg as u32,
            ..none
        },
        Body::NeedsSync => none,
    }
}

/// The block of a message, each of whose fields is in its range.
///
/// Bytes 0 to 3 are the kind and bytes 4 to 7 the slot. Bytes 8 to 15 are the events number, or the
/// first sector of a range; bytes 16 to 23 the size, or the first sector past a range; bytes 24 to 27
/// the leg; bytes 32 to 47 the uuid; bytes 48 to 63 eight roles of 16 bits, as `Role::code` has them.
/// What a kind doesn't use is 0.
#[tactic(auto, unfolding(crate::specs::Messages::spelled))]
pub fn write_msg(m: &Msg) -> Block
    requires { IsInRange m.now }
    ensures { Spells result.bytes m.now }
{
    Block {
        bytes: fields_of(m).write(),
    }
}

#[tactic(auto, unfolding(crate::specs::Reading::roles_of))]
fn roles_of(codes: &[u16; 8]) -> Option<Roles>
    ensures { result ≡ roles_of codes.now }
{
    Some(Roles {
        legs: [
            Role::of_code(0, codes[0])?,
            Role::of_code(1, codes[1])?,
            Role::of_code(2, codes[2])?,
            Role::of_code(3, codes[3])?,
            Role::of_code(4, codes[4])?,
            Role::of_code(5, codes[5])?,
            Role::of_code(6, codes[6])?,
            Role::of_code(7, codes[7])?,
        ],
    })
}

#[tactic(auto, unfolding(crate::specs::Reading::state_of))]
fn state_of(f: &Fields) -> Option<(u64, Roles, u32)>
    ensures { result ≡ state_of f.now }
{
    Some((f.first, roles_of(&f.roles)?, narrow(f.second)?))
}

#[tactic(auto, unfolding(crate::specs::Reading::metadata_of))]
fn metadata_of(f: &Fields) -> Option<Body>
    ensures { result ≡ metadata_of f.now }
{
    let (events, roles, size) = state_of(f)?;
    Some(Body::Metadata {
        events,
        roles,
        size,
    })
}

#[tactic(auto, unfolding(crate::specs::Reading::capacity_of))]
fn capacity_of(f: &Fields) -> Option<Body>
    ensures { result ≡ capacity_of f.now }
{
    let (events, roles, size) = state_of(f)?;
    Some(Body::Capacity {
        events,
        roles,
        size,
    })
}

fn small(n: u32) -> Option<u8>
    ensures { result ≡ below (2 ^ 8) n }
{
    u8::try_from(n).ok()
}

#[tactic(auto, unfolding(crate::specs::Reading::body_of, crate::specs::Reading::resyncing_of, crate::specs::Reading::leg_of))]
fn body_of(f: &Fields) -> Option<Body>
    ensures { result ≡ body_of f.now }
{
    match f.kind {
        0 => metadata_of(f),
        1 => Some(Body::Resyncing(range_of(f.first, f.second)?)),
        2 => Some(Body::NewDisk {
            leg: small(f.leg)?,
            uuid: f.uuid,
        }),
        3 => Some(Body::Remove { leg: small(f.leg)? }),
        4 => Some(Body::ReAdd { leg: small(f.leg)? }),
        5 => Some(Body::NeedsSync),
        6 => capacity_of(f),
        _ => None,
    }
}

// The message that the fields may stand for, whatever stands in those that its kind doesn't use.
#[tactic(auto, unfolding(crate::specs::Reading::msg_of))]
fn msg_of(f: &Fields) -> Option<Msg>
    ensures { result ≡ msg_of f.now }
{
    Some(Msg {
        slot: small(f.slot)?,
        body: body_of(f)?,
    })
}

// Whether the block is this message's.
fn spells(block: &Block, m: &Msg) -> bool
    ensures { IsTrue result ↔ Spells block.now.bytes m.now }
{
    m.is_in_range() && write_msg(m) == *block
}

/// The message whose block this is. None where it is no message's.
pub fn read_msg(block: &Block) -> Option<Msg>
    ensures { result ≡ message_in block.now.bytes }
{
    let m = msg_of(&Fields::read(&block.bytes))?;
    if spells(block, &m) { Some(m) } else { None }
}
