ghost use Rattle.std.specs.Prelude.{◌≡◌, ◌≤◌, ◌++◌, [], Err, IfOk, OnOk, string_bytes};
ghost use Rattle.std.specs.List.{AllByRecursion};
ghost use Rattle.dlm_space.specs.Parts.{locks_of};
ghost use Rattle.mdc_types.specs.Faults.{Rose};
ghost use Rattle.script_text.specs.Locks.{IsLockLine};
ghost use Rattle.script_text.specs.Outside.{WroteFront, IsDue};
ghost use Rattle.report_text.specs.declared.locks.LockReply.{LockReply};
ghost use Rattle.lock_script.specs.Replies.{Takes};
ghost use Rattle.lock_script.specs.Runs.{reply_text, RanAll, RanSome, RanCut};

use crate::replies::reply;
use dlm_space::Space;
use report_text::{LockReply, lock_reply_text};
use script_text::{LockLine, Sink, TextOut};
use std::alloc::{AllocError, Global};

/// Why a lock script was not run to its end.
#[derive(Clone, Copy, PartialEq, Eq, Debug)]
pub enum LocksEnd {
    /// A write of the text failed.
    Write,
    Memory,
}

// The line of text of a reply.
fn reply_text(alloc: Global, reply: &LockReply) -> Result<String, AllocError>
    ensures { IfOk result (λ t. string_bytes t ≡ reply_text reply.now) }
{
    let mut text = lock_reply_text(alloc, reply)?;
    text.push_str("\n")?;
    Ok(text)
}

// One line, and its line of text.
fn run_line<K: Sink>(
    alloc: Global,
    space: &mut Space,
    line: LockLine,
    out: &mut TextOut,
    sink: &mut K,
) -> Result<(), LocksEnd>
    requires { IsLockLine line }
    ensures ok { OnOk result ((reply : LockReply) × (Takes (locks_of space.old) line (locks_of space.new) reply × IsDue (K.written sink.old) (out.old ++ reply_text reply) out.new (K.written sink.new))) }
    ensures write { result ≡ Err LocksEnd.Write → (reply : LockReply) × (Takes (locks_of space.old) line (locks_of space.new) reply × WroteFront (K.written sink.old) (out.old ++ reply_text reply) (K.written sink.new)) }
    ensures gone { result ≡ Err LocksEnd.Write → out.new ≡ [] }
    ensures memory { result ≡ Err LocksEnd.Memory → (K.written sink.new ≡ K.written sink.old) × (out.new ≡ out.old) }
    ensures rose { result ≡ Err LocksEnd.Write → Rose (K.faults sink.old) (K.faults sink.new) }
    ensures later { K.faults sink.old ≤ K.faults sink.new }
{
    let reply = reply(space, line);
    match reply_text(alloc, &reply) {
        Ok(text) => match out.put(sink, text.as_str().as_bytes()) {
            Ok(()) => Ok(()),
            Err(_) => Err(LocksEnd::Write),
        },
        Err(_) => Err(LocksEnd::Memory),
    }
}

/// Runs the lines in order in a new lock space, and writes a line of text for each, through `out`, where
/// nothing may wait before and nothing waits after.
///
/// The calls that are accepted are a list of which `dlm_space`'s law of all such lists speaks. Where a
/// write fails, a front of the text of the first lines was written; where memory is wanting, all of it.
pub fn run_locks<K: Sink>(
    alloc: Global,
    lines: &[LockLine],
    out: &mut TextOut,
    sink: &mut K,
) -> Result<(), LocksEnd>
    requires lines { AllByRecursion IsLockLine lines.now }
    requires empty { out.old ≡ [] }
    ensures ok { OnOk result (RanAll lines.now (K.written sink.old) (K.written sink.new)) }
    ensures write { result ≡ Err LocksEnd.Write → RanCut lines.now (K.written sink.old) (K.written sink.new) }
    ensures memory { result ≡ Err LocksEnd.Memory → RanSome lines.now (K.written sink.old) (K.written sink.new) }
    ensures gone { out.new ≡ [] }
    ensures rose { result ≡ Err LocksEnd.Write → Rose (K.faults sink.old) (K.faults sink.new) }
    ensures later { K.faults sink.old ≤ K.faults sink.new }
{
    let mut space = Space::new();
    for line in lines {
        match run_line(alloc, &mut space, *line, out, sink) {
            Ok(()) => {}
            Err(LocksEnd::Write) => return Err(LocksEnd::Write),
            // The text of the lines before is written.
            Err(LocksEnd::Memory) => {
                return match out.flush(sink) {
                    Ok(()) => Err(LocksEnd::Memory),
                    Err(_) => Err(LocksEnd::Write),
                };
            }
        }
    }
    match out.flush(sink) {
        Ok(()) => Ok(()),
        Err(_) => Err(LocksEnd::Write),
    }
}
