ghost use Rattle.std.specs.Prelude.{◌≡◌, ◌⊎◌, ◌≤◌, ◌++◌, ℕ, List, [], Err, IfOk, OnOk, OnErr, length};
ghost use Rattle.std.specs.Prelude.{true, string_bytes};
ghost use Rattle.mdc_types.specs.Faults.{Rose, HasCause};
ghost use Rattle.mdc_types.specs.declared.outcomes.Outcome.{Outcome};
ghost use Rattle.cluster_core.specs.World.{trace_limit};
ghost use Rattle.cluster_core.specs.Stands.{stand, Makes, FindsFull};
ghost use Rattle.script_text.specs.Outside.{WroteFront, IsDue};
ghost use Rattle.script_play.specs.Playing.{TakesEvent, Takes, Breaks, EndsFull, SoFar, CutShort, Stopped};
ghost use Rattle.script_play.specs.QueryAnswers.{Checks};
ghost use Rattle.script_play.specs.Texts.{printed};

use crate::checking::check_answer;
use crate::drivers::{take_auto, take_compare, take_storm};
use crate::queries::{
    map_answer, record_answer, refused_text, size_answer, slot_answer, view_answer,
};
use cluster_core::{StepEnd, World};
use leg_store::LegDev;
use mdc_types::{Event, Failed};
use report_text::outcome_text;
use script_text::{Line, ScriptLines, Sink, TextOut};
use std::alloc::{AllocError, Global};
use std::thread::Threads;

/// Why a line has no text.
#[derive(Clone, Copy, PartialEq, Eq, Debug)]
pub enum LineEnd {
    Memory,
    /// An event found the trace full.
    TraceFull,
}

/// Why lines were not played to their end.
#[derive(Clone, Copy, PartialEq, Eq, Debug)]
pub enum LinesEnd {
    /// A write of their text failed.
    Write,
    Memory,
    /// An event found the trace full.
    TraceFull,
}

// One event, and what is to be printed for it.
fn take_event<L: LegDev>(alloc: Global, world: &mut World<L>, e: Event) -> Result<String, LineEnd>
    ensures ok { IfOk result (λ t.
        TakesEvent (stand world.old) e (stand world.new) (string_bytes t)) }
    ensures memory { result ≡ Err LineEnd.Memory → (stand world.new ≡ stand world.old)
        ⊎ ((o : Outcome) × Makes (stand world.old) e o (stand world.new)) }
    ensures full { result ≡ Err LineEnd.TraceFull
        → FindsFull (stand world.old) e × (stand world.new ≡ stand world.old) }
    ensures origin { world.new.origin ≡ world.old.origin }
{
    let text = match world.step(e) {
        Ok(o) => outcome_text(alloc, &o),
        Err(StepEnd::Refused(r)) => refused_text(alloc, &r),
        Err(StepEnd::TraceFull) => return Err(LineEnd::TraceFull),
        Err(StepEnd::Memory) => return Err(LineEnd::Memory),
    };
    match text {
        Ok(text) => Ok(text),
        Err(_) => Err(LineEnd::Memory),
    }
}

// One line, and what is to be printed for it.
fn take_line<R: Threads + Sync, L: LegDev>(
    rt: &R,
    alloc: Global,
    world: &mut World<L>,
    line: Line,
) -> Result<String, LineEnd>
    requires base { length world.old.origin.base ≡ world.old.origin.sizes.room }
    ensures ok { IfOk result (λ t.
        Takes (Checks world.old.origin) (stand world.old) line (stand world.new) (string_bytes t)) }
    ensures memory { result ≡ Err LineEnd.Memory
        → Breaks (stand world.old) line (stand world.new) }
    ensures full { result ≡ Err LineEnd.TraceFull
        → EndsFull (stand world.old) line (stand world.new) }
    ensures origin { world.new.origin ≡ world.old.origin }
{
    let answer = match line {
        Line::Event(e) => return take_event(alloc, world, e),
        Line::Auto(k) => return take_auto(alloc, world, k),
        Line::Storm { seed, turns } => return take_storm(alloc, world, seed, turns),
        Line::View(n) => view_answer(alloc, world, n),
        Line::Map(n) => map_answer(alloc, world, n),
        Line::Slot { leg, node } => slot_answer(alloc, world, leg, node),
        Line::Record => record_answer(alloc, world),
        Line::Size(n) => size_answer(alloc, world, n),
        Line::Check => check_answer(alloc, world),
        Line::Compare => take_compare(rt, alloc, world),
    };
    match answer {
        Ok(text) => Ok(text),
        Err(_) => Err(LineEnd::Memory),
    }
}

// A text and its line feed.
fn put_line<K: Sink>(out: &mut TextOut, sink: &mut K, text: &str) -> Result<(), Failed>
    ensures ok { OnOk result
        (IsDue (K.written sink.old) (out.old ++ printed text.now) out.new (K.written sink.new)) }
    ensures err { OnErr result
        (WroteFront (K.written sink.old) (out.old ++ printed text.now) (K.written sink.new)) }
    ensures cause { HasCause (λ e. true) (K.faults sink.old) (K.faults sink.new) result }
{
    out.put(sink, text.as_bytes())?;
    out.put(sink, b"\n")
}

// One line, and what is written for it.
fn play_line<R: Threads + Sync, L: LegDev, K: Sink>(
    rt: &R,
    alloc: Global,
    world: &mut World<L>,
    line: Line,
    out: &mut TextOut,
    sink: &mut K,
) -> Result<(), LinesEnd>
    requires base { length world.old.origin.base ≡ world.old.origin.sizes.room }
    ensures origin { world.new.origin ≡ world.old.origin }
    ensures ok { OnOk result ((text : List ℕ)
        × (Takes (Checks world.old.origin) (stand world.old) line (stand world.new) text
        × IsDue (K.written sink.old) (out.old ++ printed text) out.new (K.written sink.new))) }
    ensures write { result ≡ Err LinesEnd.Write → (text : List ℕ)
        × (Takes (Checks world.old.origin) (stand world.old) line (stand world.new) text
        × WroteFront (K.written sink.old) (out.old ++ printed text) (K.written sink.new)) }
    ensures rose { result ≡ Err LinesEnd.Write → Rose (K.faults sink.old) (K.faults sink.new) }
    ensures memory { result ≡ Err LinesEnd.Memory
        → Breaks (stand world.old) line (stand world.new)
        × (K.written sink.new ≡ K.written sink.old) × (out.new ≡ out.old) }
    ensures full { result ≡ Err LinesEnd.TraceFull
        → EndsFull (stand world.old) line (stand world.new)
        × (K.written sink.new ≡ K.written sink.old) × (out.new ≡ out.old) }
    ensures later { K.faults sink.old ≤ K.faults sink.new }
{
    match take_line(rt, alloc, world, line) {
        Ok(text) => match put_line(out, sink, text.as_str()) {
            Ok(()) => Ok(()),
            Err(_) => Err(LinesEnd::Write),
        },
        Err(LineEnd::Memory) => Err(LinesEnd::Memory),
        Err(LineEnd::TraceFull) => Err(LinesEnd::TraceFull),
    }
}

/// Plays the lines of a script in order, and puts a line of text for each.
pub fn play_lines<R: Threads + Sync, L: LegDev, K: Sink>(
    rt: &R,
    alloc: Global,
    world: &mut World<L>,
    lines: &ScriptLines,
    out: &mut TextOut,
    sink: &mut K,
) -> Result<(), LinesEnd>
    requires base { length world.old.origin.base ≡ world.old.origin.sizes.room }
    requires empty { out.old ≡ [] }
    ensures ok { OnOk result (SoFar (Checks world.old.origin) (stand world.old) lines.now
        (stand world.new) (K.written sink.old) out.new (K.written sink.new)) }
    ensures write { result ≡ Err LinesEnd.Write → CutShort (Checks world.old.origin)
        (stand world.old) lines.now (stand world.new) (K.written sink.old) (K.written sink.new) }
    ensures rose { result ≡ Err LinesEnd.Write → Rose (K.faults sink.old) (K.faults sink.new) }
    ensures memory { result ≡ Err LinesEnd.Memory → Stopped (Checks world.old.origin) Breaks
        (stand world.old) lines.now (stand world.new) (K.written sink.old) out.new
        (K.written sink.new) }
    ensures full { result ≡ Err LinesEnd.TraceFull → Stopped (Checks world.old.origin) EndsFull
        (stand world.old) lines.now (stand world.new) (K.written sink.old) out.new
        (K.written sink.new) }
    ensures origin { world.new.origin ≡ world.old.origin }
    ensures later { K.faults sink.old ≤ K.faults sink.new }
{
    world.history();
    for i in 0..lines.len() {
        let played = play_line(rt, alloc, world, lines.line(i), out, sink);
        world.history();
        match played {
            Ok(()) => {}
            Err(why) => return Err(why),
        }
    }
    Ok(())
}
