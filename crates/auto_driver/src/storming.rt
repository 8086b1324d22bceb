ghost use Rattle.std.specs.Prelude.{◌≡◌, ◌-◌, ◌^◌, IfOk, OnOk, Err};
ghost use Rattle.mdc_types.specs.declared.refusals.Refusal.{Refusal};
ghost use Rattle.cluster_core.specs.Stands.{stand, FindsFull};
ghost use Rattle.auto_driver.specs.Storming.{AllBelow, Tries, Stormed, StormedBelow, StormedTillFull};

use crate::counting::{Summary, counted_as};
use cluster_core::{StepEnd, World};
use leg_store::LegDev;
use mdc_types::{Event, LegId};
use storm_turns::{cut_after, named, turn};

// Tries an event, and counts what came of it.
fn try_event<L: LegDev>(world: &mut World<L>, e: Event, counts: &mut Summary) -> Result<(), StepEnd>
    requires { AllBelow (2 ^ 32 - 1) counts.old }
    ensures origin { world.new.origin ≡ world.old.origin }
    ensures ok { OnOk result (Tries e (stand world.old) counts.old (stand world.new) counts.new) }
    ensures memory { result ≡ Err StepEnd.Memory → stand world.new ≡ stand world.old }
    ensures full { result ≡ Err StepEnd.TraceFull
        → (stand world.new ≡ stand world.old) × FindsFull (stand world.old) e }
    ensures refused { (r : Refusal) → result ≡ Err (StepEnd.Refused r) → ⊥ }
{
    match world.step(e) {
        Ok(o) => {
            counts.count(counted_as(&e, &o));
            Ok(())
        }
        Err(StepEnd::Refused(_)) => {
            counts.count_refused();
            Ok(())
        }
        Err(StepEnd::TraceFull) => Err(StepEnd::TraceFull),
        Err(StepEnd::Memory) => Err(StepEnd::Memory),
    }
}

/// Makes `k` turns of events that the number `seed` gives, and tells what they did. At an `Err` what was
/// done before stays.
pub fn storm<L: LegDev>(world: &mut World<L>, seed: u64, k: u32) -> Result<Summary, StepEnd>
    ensures origin { world.new.origin ≡ world.old.origin }
    ensures ok { IfOk result (λ counts.
        Stormed k seed (stand world.old) (stand world.new) counts) }
    ensures memory { result ≡ Err StepEnd.Memory
        → StormedBelow k seed (stand world.old) (stand world.new) }
    ensures full { result ≡ Err StepEnd.TraceFull
        → StormedTillFull k seed (stand world.old) (stand world.new) }
    ensures refused { (r : Refusal) → result ≡ Err (StepEnd.Refused r) → ⊥ }
{
    let mut counts = Summary::none_of(k);
    let mut x = seed;
    let mut cut: Option<LegId> = None;
    for i in 0..k {
        let name = named(k, i);
        let drawn = turn(world.core(), i, x, cut, name);
        cut = cut_after(world.core(), cut, name);
        x = drawn.seed;
        match drawn.event {
            Some(e) => match try_event(world, e, &mut counts) {
                Ok(()) => {}
                Err(why) => return Err(why),
            },
            None => {}
        }
    }
    Ok(counts)
}
