ghost use Rattle.std.specs.Prelude.{◌≡◌, length, IfOk, string_bytes};
ghost use Rattle.cluster_core.specs.Stands.{stand};
ghost use Rattle.script_play.specs.QueryAnswers.{Checks};

use cluster_core::World;
use leg_store::LegDev;
use plain_history::{Checked, check};
use report_text::{bad_text, legal_text};
use std::alloc::{AllocError, Global};

/// The answer to `check`: the trace is run through the plain history.
pub fn check_answer<L: LegDev>(alloc: Global, world: &World<L>) -> Result<String, AllocError>
    requires base { length world.now.origin.base ≡ world.now.origin.sizes.room }
    ensures { IfOk result (λ t. Checks world.now.origin (stand world.now) (string_bytes t)) }
{
    world.history();
    let trace = world.trace();
    match check(alloc, world.opening().base(), trace)? {
        Checked::Legal => legal_text(alloc, trace.len()),
        Checked::FirstBad(place) => bad_text(alloc, place + 1),
    }
}
