ghost use Rattle.std.specs.Prelude.{◌≡◌, ◌≤◌, ◌++◌, ℕ, List, [], Err, IfOk, OnOk, string_bytes};
ghost use Rattle.std.specs.List.{AllByRecursion};
ghost use Rattle.lock_wire.specs.Machine.{opened};
ghost use Rattle.lock_wire.specs.Parts.{wire_of};
ghost use Rattle.mdc_types.specs.Faults.{Rose};
ghost use Rattle.script_text.specs.Wire.{IsWireLine};
ghost use Rattle.script_text.specs.Outside.{WroteFront, IsDue};
ghost use Rattle.wire_script.specs.Runs.{TakesLine, RanAll, RanSome, RanShort, RanCut};

use crate::replies::reply;
use lock_wire::Wire;
use report_text::wire_reply_text;
use script_text::{Sink, TextOut, WireLine};
use std::alloc::{AllocError, Global};

/// Why a wire script was not run to its end.
#[derive(Clone, Copy, PartialEq, Eq, Debug)]
pub enum RunEnd {
    /// A write of the text failed.
    Write,
    Memory,
}

// One line, and its line of text.
fn take_line(alloc: Global, wire: &mut Wire, line: WireLine) -> Result<String, AllocError>
    requires { IsWireLine line }
    ensures { IfOk result (λ t.
        TakesLine (wire_of wire.old) line (wire_of wire.new) (string_bytes t)) }
{
    let reply = reply(wire, line)?;
    let mut text = wire_reply_text(alloc, &reply)?;
    text.push_str("\n")?;
    Ok(text)
}

// One line, and its line of text goes out.
fn run_line<K: Sink>(
    alloc: Global,
    wire: &mut Wire,
    line: WireLine,
    out: &mut TextOut,
    sink: &mut K,
) -> Result<(), RunEnd>
    requires { IsWireLine line }
    ensures ok { OnOk result ((t : List ℕ) × (TakesLine (wire_of wire.old) line (wire_of wire.new) t
        × IsDue (K.written sink.old) (out.old ++ t) out.new (K.written sink.new))) }
    ensures write { result ≡ Err RunEnd.Write → (t : List ℕ)
        × (TakesLine (wire_of wire.old) line (wire_of wire.new) t
        × WroteFront (K.written sink.old) (out.old ++ t) (K.written sink.new)) }
    ensures gone { result ≡ Err RunEnd.Write → out.new ≡ [] }
    ensures memory { result ≡ Err RunEnd.Memory →
        (K.written sink.new ≡ K.written sink.old) × (out.new ≡ out.old) }
    ensures rose { result ≡ Err RunEnd.Write → Rose (K.faults sink.old) (K.faults sink.new) }
    ensures later { K.faults sink.old ≤ K.faults sink.new }
{
    match take_line(alloc, wire, line) {
        Ok(text) => match out.put(sink, text.as_str().as_bytes()) {
            Ok(()) => Ok(()),
            Err(_) => Err(RunEnd::Write),
        },
        Err(_) => Err(RunEnd::Memory),
    }
}

// The lines, in a new space, with their text.
fn run_lines<K: Sink>(
    alloc: Global,
    nodes: u8,
    wire: &mut Wire,
    lines: &[WireLine],
    out: &mut TextOut,
    sink: &mut K,
) -> Result<(), RunEnd>
    requires some_node { 1 ≤ nodes }
    requires nodes { nodes ≤ 16 }
    requires new { wire_of wire.old ≡ opened nodes }
    requires lines { AllByRecursion IsWireLine lines.now }
    requires empty { out.old ≡ [] }
    ensures ok { OnOk result (RanAll nodes lines.now (K.written sink.old) (K.written sink.new)) }
    ensures write { result ≡ Err RunEnd.Write →
        RanCut nodes lines.now (K.written sink.old) (K.written sink.new) }
    ensures memory { result ≡ Err RunEnd.Memory →
        RanSome nodes lines.now (K.written sink.old) (K.written sink.new) }
    ensures gone { out.new ≡ [] }
    ensures rose { result ≡ Err RunEnd.Write → Rose (K.faults sink.old) (K.faults sink.new) }
    ensures later { K.faults sink.old ≤ K.faults sink.new }
{
    for line in lines {
        match run_line(alloc, wire, *line, out, sink) {
            Ok(()) => {}
            Err(RunEnd::Write) => return Err(RunEnd::Write),
            // The text of the lines before is written.
            Err(RunEnd::Memory) => {
                return match out.flush(sink) {
                    Ok(()) => Err(RunEnd::Memory),
                    Err(_) => Err(RunEnd::Write),
                };
            }
        }
    }
    match out.flush(sink) {
        Ok(()) => Ok(()),
        Err(_) => Err(RunEnd::Write),
    }
}

/// Runs the lines in order in a new lock space that is spread over so many nodes, and writes a line
/// of text for each, through `out`, where nothing may wait before and nothing waits after.
///
/// The calls that are accepted are a list of which `laws_wire`'s law of all such lists speaks, so no
/// two nodes ever hold what disagrees, whichever masters died and in whatever order the links
/// delivered. A call that is refused changes nothing. Where a write fails, a front of the text of
/// the first lines was written; where memory is wanting, all of it.
pub fn run_wire<K: Sink>(
    alloc: Global,
    nodes: u8,
    lines: &[WireLine],
    out: &mut TextOut,
    sink: &mut K,
) -> Result<(), RunEnd>
    requires some_node { 1 ≤ nodes }
    requires nodes { nodes ≤ 16 }
    requires lines { AllByRecursion IsWireLine lines.now }
    requires empty { out.old ≡ [] }
    ensures ok { OnOk result (RanAll nodes lines.now (K.written sink.old) (K.written sink.new)) }
    ensures write { result ≡ Err RunEnd.Write →
        RanCut nodes lines.now (K.written sink.old) (K.written sink.new) }
    ensures memory { result ≡ Err RunEnd.Memory →
        RanShort nodes lines.now (K.written sink.old) (K.written sink.new) }
    ensures gone { out.new ≡ [] }
    ensures rose { result ≡ Err RunEnd.Write → Rose (K.faults sink.old) (K.faults sink.new) }
    ensures later { K.faults sink.old ≤ K.faults sink.new }
{
    match Wire::open(alloc, nodes) {
        Ok(mut wire) => run_lines(alloc, nodes, &mut wire, lines, out, sink),
        Err(_) => Err(RunEnd::Memory),
    }
}
