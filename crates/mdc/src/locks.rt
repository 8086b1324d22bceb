ghost use Rattle.std.specs.Prelude.{◌≡◌};
ghost use Rattle.mdc_types.specs.Faults.{Rose};
ghost use Rattle.mdc.specs.LockAnswers.{LocksJudged};

use crate::endings::tell_fault;
use crate::status::Status;
use lock_script::{LocksEnd, run_locks};
use script_text::{ScriptEnd, Sink, TextOut, read_locks};
use std::alloc::Global;

/// Judges the bytes as a lock script, and runs them if they are one.
pub fn lock_bytes<K: Sink>(alloc: Global, bytes: &[u8], sink: &mut K) -> Status
    ensures judged { LocksJudged bytes.now (K.written sink.old) (K.written sink.new) result }
    ensures rose { result ≡ Status.WriteFault → Rose (K.faults sink.old) (K.faults sink.new) }
{
    match (read_locks(alloc, bytes), TextOut::new(alloc)) {
        (Ok(script), Ok(mut out)) => match run_locks(alloc, script.lines(), &mut out, sink) {
            Ok(()) => Status::Done,
            Err(LocksEnd::Write) => Status::WriteFault,
            Err(LocksEnd::Memory) => Status::Memory,
        },
        (Err(ScriptEnd::Fault(fault)), _) => tell_fault(alloc, fault, sink),
        _ => Status::Memory,
    }
}
