ghost use Rattle.std.specs.Prelude.{◌≡◌, ◌<◌, IfOk};
ghost use Rattle.cluster_model.specs.State.{sizes};
ghost use Rattle.world_state.specs.Kept.{core_of};
ghost use Rattle.leg_comparison.specs.Reads.{GaveAll, Failing, HoldSame};

use cluster_core::World;
use leg_store::LegDev;
use mdc_types::{LegId, Sector};
use std::alloc::Global;

/// Why a leg wasn't read whole.
#[derive(Clone, Copy)]
pub enum ReadEnd {
    /// A read failed.
    Failed,
    Memory,
}

/// All data sectors of a leg, in their order.
pub fn read_whole<L: LegDev>(
    alloc: Global,
    world: &mut World<L>,
    l: LegId,
) -> Result<Vec<Sector>, ReadEnd>
    requires { l < world.old.kept.identity.geometry.legs }
    ensures same { world.new ≡ record world.old { legs = world.new.legs } }
    ensures holds { HoldSame world.old.legs world.new.legs }
    ensures ok { IfOk result (λ sectors.
        GaveAll world.old.kept.identity.geometry l world.old.legs sectors.items world.new.legs) }
    ensures failed { result ≡ Err ReadEnd.Failed
        → Failing world.old.kept.identity.geometry l world.old.legs world.new.legs }
    ensures memory { result ≡ Err ReadEnd.Memory → world.new ≡ world.old }
{
    let geometry = world.geometry();
    let room = geometry.room();
    let offset = geometry.data_offset();
    let mut sectors = match Vec::with_capacity(alloc, room as usize) {
        Ok(sectors) => sectors,
        Err(_) => return Err(ReadEnd::Memory),
    };
    for s in 0..room {
        match world.look(l, offset + s) {
            Ok(sector) => sectors.push_reserved(sector),
            Err(_) => return Err(ReadEnd::Failed),
        }
    }
    Ok(sectors)
}
