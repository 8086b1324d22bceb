ghost use Rattle.std.specs.Prelude.{◌≡◌, ◌<◌, ◌^◌, ℕ, length, Err, IfOk, OnOk, IfSome};
ghost use Rattle.mdc_types.specs.Bits.{has_bit};
ghost use Rattle.mdc_types.specs.Geometry.{nodes_of};
ghost use Rattle.leg_failure.specs.Views.{works};
ghost use Rattle.cluster_model.specs.Phases.{is_up};
ghost use Rattle.driver_rules.specs.Wants.{least_member};
ghost use Rattle.world_state.specs.Kept.{core_of};
ghost use Rattle.world_state.specs.Told.{told_by};
ghost use Rattle.leg_comparison.specs.Reads.{HoldSame, Failing, TakesIn};
ghost use Rattle.leg_comparison.specs.Compared.{Compares, TellsOfContents, told};

use crate::reading::{ReadEnd, read_whole};
use cluster_core::World;
use crew_check::Rows;
use leg_store::LegDev;
use mdc_types::{LegId, NodeId, NodeState, SectorNo, has_leg};
use std::alloc::{AllocError, Global};
use std::thread::Threads;
use world_state::CoreState;

/// What a comparison of legs found.
#[derive(Clone, Copy, PartialEq, Eq, Debug)]
pub enum Comparison {
    /// No two of them differ.
    Equal,
    /// The first data sector in which two of them differ.
    Differ(SectorNo),
    /// A read of this leg failed.
    Unread(LegId),
}

fn is_up(core: &CoreState, n: NodeId) -> bool
    requires { n < nodes_of core.now.identity.geometry }
    ensures { result ≡ is_up ((core_of core.now).state n) }
{
    matches!(core.state(n), NodeState::Up)
}

fn least_member(core: &CoreState) -> Option<NodeId>
    ensures value { result ≡ least_member (core_of core.now) }
    ensures range { IfSome result (λ n. n < nodes_of core.now.identity.geometry) }
{
    let nodes = core.identity.geometry.nodes();
    for m in 0..nodes {
        if is_up(core, m) {
            return Some(m);
        }
    }
    None
}

fn working(core: &CoreState, n: NodeId) -> u8
    requires { n < nodes_of core.now.identity.geometry }
    ensures { (l : ℕ) → has_bit result l ≡ works ((core_of core.now).view n) l }
{
    core.view(n).working()
}

fn told(place: Option<usize>) -> Comparison
    requires { IfSome place (λ s. s < 2 ^ 32) }
    ensures { result ≡ told place }
{
    match place {
        None => Comparison::Equal,
        Some(s) => Comparison::Differ(s as SectorNo),
    }
}

// Reads a leg whole, and takes its sectors as one row more.
fn take_leg<R: Threads + Sync, L: LegDev>(
    rt: &R,
    alloc: Global,
    world: &mut World<L>,
    rows: &mut Rows,
    l: LegId,
) -> Result<(), ReadEnd>
    requires leg { l < world.old.kept.identity.geometry.legs }
    requires fits { IfSome rows.old.first (λ a. length a ≡ world.old.kept.identity.geometry.room) }
    ensures same { world.new ≡ record world.old { legs = world.new.legs } }
    ensures holds { HoldSame world.old.legs world.new.legs }
    ensures ok { OnOk result (TakesIn world.old.kept.identity.geometry l
        world.old.legs world.new.legs rows.old rows.new) }
    ensures failed { result ≡ Err ReadEnd.Failed
        → Failing world.old.kept.identity.geometry l world.old.legs world.new.legs }
{
    let sectors = match read_whole(alloc, world, l) {
        Ok(sectors) => sectors,
        Err(why) => return Err(why),
    };
    match rows.add(rt, alloc, sectors) {
        Ok(()) => Ok(()),
        Err(_) => Err(ReadEnd::Memory),
    }
}

/// Compares the legs that the least member reads from, whole: each data sector of each of them is read
/// once, leg after leg in rising order, over no node's path, and counts as a transfer. The first read
/// that fails ends it. Two legs at most are in memory at a time. `Err` is want of memory; what was read
/// before stays counted.
pub fn compare_legs<R: Threads + Sync, L: LegDev>(
    rt: &R,
    alloc: Global,
    world: &mut World<L>,
) -> Result<Comparison, AllocError>
    ensures same { world.new ≡ record world.old { legs = world.new.legs } }
    ensures holds { HoldSame world.old.legs world.new.legs }
    ensures ok { IfOk result
        (Compares (core_of world.old.kept) world.old.legs world.new.legs) }
    ensures told { IfOk result
        (TellsOfContents (core_of world.old.kept) (told_by world.old.legs)) }
{
    let Some(n) = least_member(world.core()) else {
        return Ok(Comparison::Equal);
    };
    let working = working(world.core(), n);
    let mut rows = Rows::new();
    for l in 0..8 {
        if !has_leg(working, l) {
            continue;
        }
        match take_leg(rt, alloc, world, &mut rows, l) {
            Ok(()) => {}
            Err(ReadEnd::Failed) => return Ok(Comparison::Unread(l)),
            Err(ReadEnd::Memory) => return Err(AllocError),
        }
    }
    Ok(told(rows.place()))
}
