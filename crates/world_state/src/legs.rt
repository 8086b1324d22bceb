ghost use Rattle.std.specs.Prelude.{◌≡◌, ◌<◌, ◌⊎◌, List, ℕ, Option, Some, None, true, false, length, map, get_or, is_ok, IfOk, OnErr, MatchResult};
ghost use Rattle.mdc_types.specs.declared.numbers.Sector.{Sector};
ghost use Rattle.mdc_types.specs.Faults.{Rose};
ghost use Rattle.world_state.specs.Kept.{core_of};
ghost use Rattle.world_state.specs.Told.{seen_of, Sent, Received};

use crate::CoreState;
use leg_store::LegDev;
use mdc_types::{Failed, LegId, NodeId, Sector};

// Writes a sector to one leg of several.
fn write_leg<L: LegDev>(legs: &mut Vec<L>, l: usize, at: u32, value: &Sector) -> Result<(), Failed>
    requires there { l < length legs.old.items }
    requires within { at < get_or (map L.size legs.old.items) l 0 }
    ensures { Sent false l at value.now (is_ok result)
        (seen_of L.contents L.size L.faults L.plan legs.old.items)
        (seen_of L.contents L.size L.faults L.plan legs.new.items) }
{
    let leg = &mut legs[l];
    leg.write(at, value)
}

/// Reads a sector from one leg of several, over no node's path.
pub fn read_leg<L: LegDev>(legs: &mut Vec<L>, l: usize, at: u32) -> Result<Sector, Failed>
    requires there { l < length legs.old.items }
    requires within { at < get_or (map L.size legs.old.items) l 0 }
    ensures { Received false l at result
        (seen_of L.contents L.size L.faults L.plan legs.old.items)
        (seen_of L.contents L.size L.faults L.plan legs.new.items) }
{
    let leg = &mut legs[l];
    leg.read(at)
}

/// Node `n` writes the sector `at` of leg `l`. Over a cut path the leg isn't called.
pub fn send<L: LegDev>(
    core: &CoreState,
    legs: &mut Vec<L>,
    n: NodeId,
    l: LegId,
    at: u32,
    value: &Sector,
) -> Result<(), Failed>
    requires node { n < 16 }
    requires leg { l < 8 }
    requires there { l < length legs.old.items }
    requires within { at < get_or (map L.size legs.old.items) l 0 }
    ensures { Sent ((core_of core.now).cut n l) l at value.now (is_ok result)
        (seen_of L.contents L.size L.faults L.plan legs.old.items)
        (seen_of L.contents L.size L.faults L.plan legs.new.items) }
{
    if !core.paths.open(n, l) {
        return Err(Failed);
    }
    write_leg(legs, l as usize, at, value)
}

/// Node `n` reads the sector `at` of leg `l`. Over a cut path the leg isn't called.
pub fn receive<L: LegDev>(
    core: &CoreState,
    legs: &mut Vec<L>,
    n: NodeId,
    l: LegId,
    at: u32,
) -> Result<Sector, Failed>
    requires node { n < 16 }
    requires leg { l < 8 }
    requires there { l < length legs.old.items }
    requires within { at < get_or (map L.size legs.old.items) l 0 }
    ensures { Received ((core_of core.now).cut n l) l at result
        (seen_of L.contents L.size L.faults L.plan legs.old.items)
        (seen_of L.contents L.size L.faults L.plan legs.new.items) }
{
    if !core.paths.open(n, l) {
        return Err(Failed);
    }
    read_leg(legs, l as usize, at)
}
