ghost use Rattle.std.specs.Prelude.{◌≡◌, replicate};
ghost use Rattle.md_superblock.specs.Arrays.{array_of};
ghost use Rattle.node_member.specs.Parts.{members_of};
ghost use Rattle.world_state.specs.Kept.{core_of};
ghost use Rattle.world_state.specs.Changed.{nobody_in};

use crate::{Attempt, CoreState};
use dlm_space::Space;
use leg_failure::View;
use leg_store::PathTable;
use md_superblock::Identity;
use mdc_types::{NodeState, Role, Roles};
use msg_rounds::{Receiver, Sender};
use node_bits::Bitmaps;
use node_copies::{Additions, Copies, Recoveries};
use node_member::Record;
use node_requests::Requests;
use suspend_ranges::SuspendList;

const SPARES: Roles = Roles {
    legs: [Role::Spare; 8],
};

impl CoreState {
    /// The state over these tables in which nobody is in.
    pub fn empty(
        identity: Identity,
        members: Record,
        tried: Vec<[Attempt; 8]>,
        requests: Requests,
        bitmaps: Bitmaps,
        copies: Copies,
        recoveries: Recoveries,
        additions: Additions,
    ) -> CoreState
        requires tried { tried.items ≡ replicate 16 (replicate 8 Attempt.Untried) }
        requires bitmaps { bitmaps.sizes ≡ identity.geometry }
        requires copies { copies.sizes ≡ identity.geometry }
        requires recoveries { recoveries.sizes ≡ identity.geometry }
        requires additions { additions.sizes ≡ identity.geometry }
        ensures core { core_of result ≡ nobody_in (array_of identity) (members_of members) requests bitmaps copies recoveries additions }
        ensures sizes { result.identity.geometry ≡ identity.geometry }
    {
        CoreState {
            identity,
            states: [NodeState::Out; 16],
            views: [View::new(SPARES, 0); 16],
            heads: [[0; 8]; 16],
            requests,
            space: Space::new(),
            senders: [Sender::new(); 16],
            offers: [None; 16],
            receivers: [Receiver::new(); 16],
            heard: [None; 16],
            tried,
            members,
            paths: PathTable::new(),
            bitmaps,
            suspended: [SuspendList::new(); 16],
            copies,
            recoveries,
            additions,
        }
    }
}
