ghost use Rattle.std.specs.Prelude.{◌≡◌, IfOk, string_bytes};
ghost use Rattle.mdc_types.specs.Faults.{Rose};
ghost use Rattle.mdc.specs.Call.{script_line};
ghost use Rattle.mdc.specs.LockAnswers.{FaultTold};
ghost use Rattle.mdc.specs.Telling.{LineTold};

use crate::status::Status;
use script_text::{ScriptFault, Sink, write_all};
use std::alloc::{AllocError, Global};

// The last line of a script that is none.
fn script_line(alloc: Global, fault: &ScriptFault) -> Result<String, AllocError>
    ensures { IfOk result (λ t. string_bytes t ≡ script_line fault.now) }
{
    let line = fault.line;
    let mut text = String::from_str(alloc, "script ")?;
    text.push_str(line.to_string(alloc)?.as_str())?;
    text.push_str(" ")?;
    text.push_str(fault.kind.word())?;
    text.push_str("\n")?;
    Ok(text)
}

/// Tells the fault of a script that is none, by the last line of the call.
pub fn tell_fault<K: Sink>(alloc: Global, fault: ScriptFault, sink: &mut K) -> Status
    ensures told { FaultTold fault (K.written sink.old) (K.written sink.new) result }
    ensures rose { result ≡ Status.WriteFault → Rose (K.faults sink.old) (K.faults sink.new) }
{
    match script_line(alloc, &fault) {
        Ok(line) => match write_all(sink, line.as_str().as_bytes()) {
            Ok(()) => Status::Script(fault),
            Err(_) => Status::WriteFault,
        },
        Err(_) => Status::Memory,
    }
}

/// Tells why a call comes to nothing, by this last line of it.
pub fn tell_line<K: Sink>(line: &[u8], status: Status, sink: &mut K) -> Status
    ensures { LineTold line.now status (K.written sink.old) (K.written sink.new)
        (K.faults sink.old) (K.faults sink.new) result }
{
    match write_all(sink, line) {
        Ok(()) => status,
        Err(_) => Status::WriteFault,
    }
}
