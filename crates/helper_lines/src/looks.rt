// What nodes that copy, or want to, look up.
ghost use Rattle.std.specs.Prelude.{◌≡◌, ◌<◌, ℕ, Bool};
ghost use Rattle.mdc_types.specs.Bits.{has_bit};
ghost use Rattle.mdc_types.specs.Roles.{is_rebuilding};
ghost use Rattle.mdc_types.specs.Geometry.{nodes_of};
ghost use Rattle.node_bitmaps.specs.Bitmap.{first_needed};
ghost use Rattle.cluster_model.specs.State.{sizes};
ghost use Rattle.driver_rules.specs.Lines.{is_just_held, rebuilds, some_pending, needs_copying};
ghost use Rattle.world_state.specs.Kept.{core_of};

use leg_failure::least_leg;
use mdc_types::{ChunkNo, NodeId, Word};
use world_state::{CoreState, rebuilding_of};

/// Whether the node has the lock `resync` and no pass.
pub fn is_just_held(core: &CoreState, n: NodeId) -> bool
    requires { n < nodes_of (sizes (core_of core.now)) }
    ensures { result ≡ is_just_held (core_of core.now) n }
{
    matches!(core.copies.word(n), Word::Held)
}

fn rebuilding_legs(core: &CoreState, n: NodeId) -> u8
    requires { n < nodes_of (sizes (core_of core.now)) }
    ensures { ◌≡◌ {A = ℕ → Bool} (has_bit result)
        (λ l. is_rebuilding (((core_of core.now).view n).role l)) }
{
    rebuilding_of(core.view(n).roles())
}

/// Whether a leg is rebuilding.
pub fn rebuilds(core: &CoreState, n: NodeId) -> bool
    requires { n < nodes_of (sizes (core_of core.now)) }
    ensures { result ≡ rebuilds (core_of core.now) n }
{
    least_leg(rebuilding_legs(core, n)).is_some()
}

/// Whether a slot is pending.
pub fn some_pending(core: &CoreState) -> bool
    ensures { result ≡ some_pending (core_of core.now) }
{
    core.members.first_pending().is_some()
}

fn first_needed(core: &CoreState, n: NodeId) -> Option<ChunkNo>
    requires { n < 16 }
    ensures { result ≡ first_needed (sizes (core_of core.now)) ((core_of core.now).bitmap n) }
{
    core.bitmaps.first_needed(n)
}

/// Whether a chunk is to be copied.
pub fn needs_copying(core: &CoreState, n: NodeId) -> bool
    requires { n < nodes_of (sizes (core_of core.now)) }
    ensures { result ≡ needs_copying (core_of core.now) n }
{
    first_needed(core, n).is_some()
}
