ghost use Rattle.std.specs.Prelude.{◌≡◌, IfOk, Err, string_bytes};
ghost use Rattle.cluster_core.specs.Stands.{stand};
ghost use Rattle.script_play.specs.Drivers.{counts_of, compared_of, line_end};
ghost use Rattle.auto_driver.specs.Helping.{HelpedTillFull};
ghost use Rattle.auto_driver.specs.Storming.{StormedTillFull};
ghost use Rattle.script_play.specs.Playing.{TakesAuto, TakesStorm, TakesCompare, ReadsLegs};
ghost use Rattle.script_play.specs.Playing.{HelpsSome, StormsSome};

use crate::playing::LineEnd;
use auto_driver::{Summary, auto, storm};
use cluster_core::{StepEnd, World};
use leg_comparison::{Comparison, compare_legs};
use leg_store::LegDev;
use report_text::{Compared, StormCounts, auto_text, compared_text, storm_text};
use std::alloc::{AllocError, Global};
use std::thread::Threads;

fn counts_of(s: &Summary) -> StormCounts
    ensures { result ≡ counts_of s.now }
{
    StormCounts {
        turns: s.turns,
        events: s.events,
        refused: s.refused,
        writes: s.writes,
        ended: s.ended,
        reads: s.reads,
        deaths: s.deaths,
        recovered: s.recovered,
    }
}

fn compared_of(found: Comparison) -> Compared
    ensures { result ≡ compared_of found }
{
    match found {
        Comparison::Equal => Compared::Equal,
        Comparison::Differ(s) => Compared::Differ(s),
        Comparison::Unread(l) => Compared::Unread(l),
    }
}

// How the events of a line ended that weren't all made. A driver makes no event that is refused.
fn line_end(why: StepEnd) -> LineEnd
    ensures { result ≡ line_end why }
{
    match why {
        StepEnd::TraceFull => LineEnd::TraceFull,
        StepEnd::Memory | StepEnd::Refused(_) => LineEnd::Memory,
    }
}

/// The line `auto K`.
pub fn take_auto<L: LegDev>(alloc: Global, world: &mut World<L>, k: u32) -> Result<String, LineEnd>
    ensures ok { IfOk result (λ t.
        TakesAuto k (stand world.old) (stand world.new) (string_bytes t)) }
    ensures memory { result ≡ Err LineEnd.Memory
        → HelpsSome k (stand world.old) (stand world.new) }
    ensures full { result ≡ Err LineEnd.TraceFull
        → HelpedTillFull k (stand world.old) (stand world.new) }
    ensures origin { world.new.origin ≡ world.old.origin }
{
    let made = match auto(world, k) {
        Ok(made) => made,
        Err(why) => return Err(line_end(why)),
    };
    match auto_text(alloc, made) {
        Ok(text) => Ok(text),
        Err(_) => Err(LineEnd::Memory),
    }
}

/// The line `storm SEED K`.
pub fn take_storm<L: LegDev>(
    alloc: Global,
    world: &mut World<L>,
    seed: u32,
    turns: u32,
) -> Result<String, LineEnd>
    ensures ok { IfOk result (λ t.
        TakesStorm seed turns (stand world.old) (stand world.new) (string_bytes t)) }
    ensures memory { result ≡ Err LineEnd.Memory
        → StormsSome seed turns (stand world.old) (stand world.new) }
    ensures full { result ≡ Err LineEnd.TraceFull
        → StormedTillFull turns seed (stand world.old) (stand world.new) }
    ensures origin { world.new.origin ≡ world.old.origin }
{
    let counts = match storm(world, u64::from(seed), turns) {
        Ok(counts) => counts,
        Err(why) => return Err(line_end(why)),
    };
    match storm_text(alloc, &counts_of(&counts)) {
        Ok(text) => Ok(text),
        Err(_) => Err(LineEnd::Memory),
    }
}

/// The query `compare`.
pub fn take_compare<R: Threads + Sync, L: LegDev>(
    rt: &R,
    alloc: Global,
    world: &mut World<L>,
) -> Result<String, AllocError>
    ensures ok { IfOk result (λ t.
        TakesCompare (stand world.old) (stand world.new) (string_bytes t)) }
    ensures reads { ReadsLegs (stand world.old) (stand world.new) }
    ensures origin { world.new.origin ≡ world.old.origin }
{
    let found = compare_legs(rt, alloc, world)?;
    compared_text(alloc, compared_of(found))
}
