// The ranges that the members' blocks tell to a node that comes in.

ghost use Rattle.std.specs.Prelude.{◌≡◌, ◌<◌};
ghost use Rattle.dlm_modes.specs.Points.{with_at};
ghost use Rattle.suspend_ranges.specs.Suspended.{ranges_of};
ghost use Rattle.cluster_model.specs.Phases.{is_up};
ghost use Rattle.cluster_model.specs.Joining.{told_range, range_of_member};
ghost use Rattle.laws_locks.specs.Rounded.{Rounded};
ghost use Rattle.world_state.specs.Kept.{core_of};

use cluster_msgs::read_range;
use mdc_types::{NodeId, NodeState, Range};
use suspend_ranges::SuspendList;
use world_state::CoreState;

fn is_up(core: &CoreState, m: NodeId) -> bool
    requires { m < 16 }
    ensures { result ≡ is_up ((core_of core.now).state m) }
{
    matches!(core.states[m as usize], NodeState::Up)
}

// The range that the valid block of a member's bitmap lock tells, which may be empty.
fn range_told(core: &CoreState, m: NodeId) -> Option<Range>
    requires { m < 16 }
    ensures { told_range result ≡ range_of_member (core_of core.now) m }
{
    let (block, valid) = core.space.block(m as usize);
    if is_up(core, m) && valid {
        read_range(&block)
    } else {
        None
    }
}

fn put(list: &mut SuspendList, owner: NodeId, range: Option<Range>)
    requires { owner < 16 }
    ensures { ranges_of list.new ≡ with_at (ranges_of list.old) owner (told_range range) }
{
    match range {
        Some(r) => list.put(owner, r),
        None => list.drop_owner(owner),
    }
}

/// The ranges of all members.
pub fn members_ranges(core: &CoreState) -> SuspendList
    requires { Rounded (core_of core.now) }
    ensures { ranges_of result ≡ range_of_member (core_of core.now) }
{
    let mut list = SuspendList::new();
    for m in 0..16 {
        put(&mut list, m, range_told(core, m));
    }
    list
}
