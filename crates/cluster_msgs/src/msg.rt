ghost use Rattle.std.specs.Prelude.{◌≡◌, ◌<◌, ◌↔◌, IsTrue};
ghost use Rattle.mdc_types.specs.Roles.{role_of, is_working, some_works};
ghost use Rattle.cluster_msgs.specs.Messages.{kind_of, IsState, IsBody, IsInRange};

use crate::ranges::is_range;
use mdc_types::{LegId, NodeId, Range, Role, Roles};

/// A message of a node to all others.
#[derive(Clone, Copy, PartialEq, Eq, Debug)]
pub struct Msg {
    /// The sender's slot, below 16.
    pub slot: NodeId,
    pub body: Body,
}

/// What a message says: one variant for each kind, by md-cluster's names and numbers.
#[derive(Clone, Copy, PartialEq, Eq, Debug)]
pub enum Body {
    /// METADATA_UPDATED, 0: the superblock has changed. Its events number, from 1 to 2^63, the roles of
    /// the legs, of which at least one works, and the array's size in sectors, from 1 to 131,072.
    Metadata {
        events: u64,
        roles: Roles,
        size: u32,
    },
    /// RESYNCING, 1: the sender resyncs this range, and no other any more. `lo < hi <= 131072`, or both
    /// are 0, which is the empty range.
    Resyncing(Range),
    /// NEWDISK, 2: this leg, below 8, comes with a device of this uuid.
    NewDisk {
        leg: LegId,
        uuid: [u8; 16],
    },
    /// REMOVE, 3: this leg, below 8, leaves the mirror.
    Remove {
        leg: LegId,
    },
    /// RE_ADD, 4: this leg, below 8, comes back.
    ReAdd {
        leg: LegId,
    },
    /// BITMAP_NEEDS_SYNC, 5: the sender leaves, and its bitmap slot waits for its recovery.
    NeedsSync,
    /// CHANGE_CAPACITY, 6: the superblock has changed, and with it the size. It holds what `Metadata`
    /// holds.
    Capacity {
        events: u64,
        roles: Roles,
        size: u32,
    },
}

fn is_working(roles: &Roles, l: LegId) -> bool
    requires { l < 8 }
    ensures { result ≡ is_working (role_of roles.now l) }
{
    matches!(roles.of(l), Role::Working)
}

fn has_working(roles: &Roles) -> bool
    ensures { result ≡ some_works (role_of roles.now) }
{
    for l in 0..8 {
        if is_working(roles, l) {
            return true;
        }
    }
    false
}

fn is_state(events: u64, roles: &Roles, size: u32) -> bool
    ensures { IsTrue result ↔ IsState events roles.now size }
{
    1 <= events && events <= 1 << 63 && 1 <= size && size <= 131_072 && has_working(roles)
}

impl Body {
    /// The number of the kind.
    pub fn kind(&self) -> u8
        ensures { result ≡ kind_of self.now }
    {
        match self {
            Body::Metadata { .. } => 0,
            Body::Resyncing(_) => 1,
            Body::NewDisk { .. } => 2,
            Body::Remove { .. } => 3,
            Body::ReAdd { .. } => 4,
            Body::NeedsSync => 5,
            Body::Capacity { .. } => 6,
        }
    }

    // Whether each field is in its range.
    fn is_in_range(&self) -> bool
        ensures { IsTrue result ↔ IsBody self.now }
    {
        match self {
            Body::Metadata {
                events,
                roles,
                size,
            }
            | Body::Capacity {
                events,
                roles,
                size,
            } => is_state(*events, roles, *size),
            Body::Resyncing(r) => is_range(*r),
            Body::NewDisk { leg, .. } | Body::Remove { leg } | Body::ReAdd { leg } => *leg < 8,
            Body::NeedsSync => true,
        }
    }
}

impl Msg {
    /// The number of the kind.
    pub fn kind(&self) -> u8
        ensures { result ≡ kind_of self.now.body }
    {
        self.body.kind()
    }

    /// Whether each field is in its range.
    pub(crate) fn is_in_range(&self) -> bool
        ensures { IsTrue result ↔ IsInRange self.now }
    {
        self.slot < 16 && self.body.is_in_range()
    }
}
