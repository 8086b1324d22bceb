ghost use Rattle.std.specs.Prelude.{◌≡◌};
ghost use Rattle.mdc_types.specs.Faults.{Rose};
ghost use Rattle.mdc.specs.WireAnswers.{WireJudged};

use crate::endings::tell_fault;
use crate::status::Status;
use script_text::{ScriptEnd, Sink, TextOut, read_wire};
use std::alloc::Global;
use wire_script::{RunEnd, run_wire};

/// Judges the bytes as a wire script, and runs them if they are one.
pub fn wire_bytes<K: Sink>(alloc: Global, bytes: &[u8], sink: &mut K) -> Status
    ensures judged { WireJudged bytes.now (K.written sink.old) (K.written sink.new) result }
    ensures rose { result ≡ Status.WriteFault → Rose (K.faults sink.old) (K.faults sink.new) }
{
    match (read_wire(alloc, bytes), TextOut::new(alloc)) {
        (Ok(script), Ok(mut out)) => {
            match run_wire(alloc, script.nodes(), script.lines(), &mut out, sink) {
                Ok(()) => Status::Done,
                Err(RunEnd::Write) => Status::WriteFault,
                Err(RunEnd::Memory) => Status::Memory,
            }
        }
        (Err(ScriptEnd::Fault(fault)), _) => tell_fault(alloc, fault, sink),
        _ => Status::Memory,
    }
}
