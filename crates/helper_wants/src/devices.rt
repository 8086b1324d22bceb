// What a node wants to tell of devices that come in, go, or lie idle.
ghost use Rattle.std.specs.Prelude.{◌≡◌, ◌<◌, ◌≤◌};
ghost use Rattle.dlm_modes.specs.First.{first_such};
ghost use Rattle.mdc_types.specs.Bits.{has_bit};
ghost use Rattle.mdc_types.specs.Geometry.{nodes_of};
ghost use Rattle.cluster_model.specs.State.{sizes};
ghost use Rattle.driver_rules.specs.Wants.{rebuild_of, spare_of, first_faulty, first_spare, of_least};
ghost use Rattle.world_state.specs.Kept.{core_of};

use crate::members::is_least_member;
use disk_addition::Addition;
use mdc_types::{LegId, NodeId, Wish, has_leg};
use world_state::CoreState;

/// The leg rebuilds that was announced, where the node locked new devices out, or that is added again.
pub fn rebuild_of(addition: Addition, holds_ex: bool) -> Option<Wish>
    ensures { result ≡ rebuild_of addition holds_ex }
{
    match (addition, holds_ex) {
        (Addition::Announced(l), true) | (Addition::ReAdd(l), _) => Some(Wish::Rebuild(l)),
        _ => None,
    }
}

/// The leg that is to be removed becomes a spare.
pub fn spare_of(addition: Addition) -> Option<Wish>
    ensures { result ≡ spare_of addition }
{
    match addition {
        Addition::Removing(l) => Some(Wish::Spare(l)),
        _ => None,
    }
}

// The first leg below `legs` that is in the set.
fn first_in(set: u8, legs: u8) -> Option<LegId>
    requires { legs ≤ 8 }
    ensures { result ≡ first_such (has_bit set) 0 legs }
{
    for l in 0..legs {
        if has_leg(set, l) {
            return Some(l);
        }
    }
    None
}

fn first_faulty(core: &CoreState, n: NodeId) -> Option<LegId>
    requires { n < nodes_of (sizes (core_of core.now)) }
    ensures { result ≡ first_faulty (core_of core.now) n }
{
    first_in(core.view(n).roles().faulty(), core.identity.geometry.legs())
}

fn first_spare(core: &CoreState, n: NodeId) -> Option<LegId>
    requires { n < nodes_of (sizes (core_of core.now)) }
    ensures { result ≡ first_spare (core_of core.now) n }
{
    first_in(core.view(n).roles().spare(), core.identity.geometry.legs())
}

/// The least member removes the first faulty leg.
pub fn remove_of(core: &CoreState, n: NodeId) -> Option<Wish>
    requires { n < nodes_of (sizes (core_of core.now)) }
    ensures { result ≡ of_least (core_of core.now) n Wish.Remove
        (first_faulty (core_of core.now) n) }
{
    if !is_least_member(core, n) {
        return None;
    }
    first_faulty(core, n).map(Wish::Remove)
}

/// The least member announces the first spare leg.
pub fn new_disk_of(core: &CoreState, n: NodeId) -> Option<Wish>
    requires { n < nodes_of (sizes (core_of core.now)) }
    ensures { result ≡ of_least (core_of core.now) n Wish.NewDisk
        (first_spare (core_of core.now) n) }
{
    if !is_least_member(core, n) {
        return None;
    }
    first_spare(core, n).map(Wish::NewDisk)
}
