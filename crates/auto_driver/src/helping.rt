ghost use Rattle.std.specs.Prelude.{◌≡◌, IfOk, Err};
ghost use Rattle.mdc_types.specs.declared.refusals.Refusal.{Refusal};
ghost use Rattle.cluster_core.specs.Stands.{stand};
ghost use Rattle.auto_driver.specs.Helping.{HelpedUpTo, HelpedBelow, HelpedTillFull};

use cluster_core::{StepEnd, World};
use helper_list::next_help;
use leg_store::LegDev;

/// Makes up to `k` events, each the next that helps the cluster on, and tells how many. It stops where
/// none helps. At an `Err` what was made before stays.
pub fn auto<L: LegDev>(world: &mut World<L>, k: u32) -> Result<u32, StepEnd>
    ensures origin { world.new.origin ≡ world.old.origin }
    ensures ok { IfOk result (λ made.
        HelpedUpTo k made (stand world.old) (stand world.new)) }
    ensures memory { result ≡ Err StepEnd.Memory
        → HelpedBelow k (stand world.old) (stand world.new) }
    ensures full { result ≡ Err StepEnd.TraceFull
        → HelpedTillFull k (stand world.old) (stand world.new) }
    ensures refused { (r : Refusal) → result ≡ Err (StepEnd.Refused r) → ⊥ }
{
    for made in 0..k {
        let Some(e) = next_help(world.core()) else {
            return Ok(made);
        };
        match world.step(e) {
            Ok(_) => {}
            Err(why) => return Err(why),
        }
    }
    Ok(k)
}
