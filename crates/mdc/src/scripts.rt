ghost use Rattle.std.specs.Prelude.{◌≡◌, ◌≤◌, true, false, is_ok, []};
ghost use Rattle.mdc_types.specs.Bits.{has_bit};
ghost use Rattle.mdc_types.specs.Faults.{Rose};
ghost use Rattle.script_text.specs.Header.{start_sizes, most_nodes};
ghost use Rattle.mdc.specs.Answers.{Judged, RanScript};

use crate::array::open_world;
use crate::endings::tell_fault;
use crate::status::{Status, status_of};
use script_play::run_lines;
use script_text::{Script, ScriptEnd, Sink, TextOut, read_script};
use std::alloc::Global;
use std::thread::Threads;

// Plays a script, and says how the lines ended.
fn run_script<R: Threads + Sync, K: Sink>(
    rt: &R,
    alloc: Global,
    script: &Script,
    out: &mut TextOut,
    sink: &mut K,
) -> Status
    requires array { is_ok (start_sizes script.now.start) ≡ true }
    requires some_node { 1 ≤ script.now.start.nodes }
    requires nodes { script.now.start.nodes ≤ most_nodes script.now.start.second }
    requires leg_0 { has_bit script.now.start.spares 0 ≡ false }
    requires empty { out.old ≡ [] }
    ensures ran { RanScript script.now (K.written sink.old) (K.written sink.new) result }
    ensures rose { result ≡ Status.WriteFault → Rose (K.faults sink.old) (K.faults sink.new) }
{
    match open_world(alloc, script) {
        Err(_) => Status::Memory,
        Ok(mut world) => {
            let end = run_lines(rt, alloc, &mut world, script.lines(), out, sink);
            status_of(end)
        }
    }
}

/// Judges the bytes, and plays them if they are a script.
pub fn play_bytes<R: Threads + Sync, K: Sink>(
    rt: &R,
    alloc: Global,
    bytes: &[u8],
    sink: &mut K,
) -> Status
    ensures judged { Judged bytes.now (K.written sink.old) (K.written sink.new) result }
    ensures rose { result ≡ Status.WriteFault → Rose (K.faults sink.old) (K.faults sink.new) }
{
    match (read_script(alloc, bytes), TextOut::new(alloc)) {
        (Ok(script), Ok(mut out)) => run_script(rt, alloc, &script, &mut out, sink),
        (Err(ScriptEnd::Fault(fault)), _) => tell_fault(alloc, fault, sink),
        _ => Status::Memory,
    }
}
