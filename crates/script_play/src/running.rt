ghost use Rattle.std.specs.Prelude.{◌≡◌, ◌≤◌, ◌++◌, [], true, length, OnOk, OnErr};
ghost use Rattle.mdc_types.specs.Faults.{Rose, HasCause};
ghost use Rattle.cluster_core.specs.World.{trace_limit};
ghost use Rattle.cluster_core.specs.Stands.{stand};
ghost use Rattle.script_text.specs.Outside.{with_back, WroteFront};
ghost use Rattle.script_play.specs.Playing.{Played};
ghost use Rattle.script_play.specs.QueryAnswers.{Checks};
ghost use Rattle.script_play.specs.Running.{Ran};

use crate::playing::{LinesEnd, play_lines};
use cluster_core::World;
use leg_store::LegDev;
use mdc_types::Failed;
use script_text::{ScriptLines, Sink, TextOut};
use std::alloc::Global;
use std::thread::Threads;

/// How the lines of a script ended.
#[derive(Clone, Copy, PartialEq, Eq, Debug)]
pub enum RunEnd {
    /// All were played, and their text was written.
    Done,
    /// A write of their text failed.
    Write,
    /// Memory is wanting. The text of the lines before is written.
    Memory,
    /// An event found the trace full. The text of the lines before and a last line are written.
    TraceFull,
}

// Writes what waits and a last line.
fn last_line<K: Sink>(out: &mut TextOut, sink: &mut K, line: &[u8]) -> Result<(), Failed>
    ensures ok { OnOk result
        (K.written sink.new ≡ with_back (K.written sink.old) (out.old ++ line.now)) }
    ensures err { OnErr result
        (WroteFront (K.written sink.old) (out.old ++ line.now) (K.written sink.new)) }
    ensures cause { HasCause (λ e. true) (K.faults sink.old) (K.faults sink.new) result }
{
    out.put(sink, line)?;
    out.flush(sink)
}

/// Plays the lines of a script in order over the world, and writes their text, for each line one of its
/// own. What an event or a driver did before the run ended is kept.
pub fn run_lines<R: Threads + Sync, L: LegDev, K: Sink>(
    rt: &R,
    alloc: Global,
    world: &mut World<L>,
    lines: &ScriptLines,
    out: &mut TextOut,
    sink: &mut K,
) -> RunEnd
    requires base { length world.old.origin.base ≡ world.old.origin.sizes.room }
    requires empty { out.old ≡ [] }
    ensures ran { Ran (Played (Checks world.old.origin) (stand world.old)) lines.now
        (stand world.new) (K.written sink.old) (K.written sink.new) result }
    ensures rose { result ≡ RunEnd.Write → Rose (K.faults sink.old) (K.faults sink.new) }
    ensures origin { world.new.origin ≡ world.old.origin }
    ensures later { K.faults sink.old ≤ K.faults sink.new }
{
    match play_lines(rt, alloc, world, lines, out, sink) {
        Ok(()) => match out.flush(sink) {
            Ok(()) => RunEnd::Done,
            Err(_) => RunEnd::Write,
        },
        Err(LinesEnd::Write) => RunEnd::Write,
        Err(LinesEnd::Memory) => match out.flush(sink) {
            Ok(()) => RunEnd::Memory,
            Err(_) => RunEnd::Write,
        },
        Err(LinesEnd::TraceFull) => match last_line(out, sink, b"trace-full\n") {
            Ok(()) => RunEnd::TraceFull,
            Err(_) => RunEnd::Write,
        },
    }
}
