ghost use Rattle.std.specs.Prelude.{◌≡◌, IfOk, codes, string_bytes};
ghost use Rattle.report_text.specs.Fields.{field_text, line_text};
ghost use Rattle.report_text.specs.Lines.{line};
ghost use Rattle.report_text.specs.Locks.{caller_word, lock_refusal_values, reply_line};

use crate::line::Field::{self, Number, Word};
use crate::line::Line::{self, Name, One, Three, Two};
use crate::words::mode_word;
use dlm_modes::Mode;
use dlm_space::LockError;
use mdc_types::NodeId;
use std::alloc::{AllocError, Global};

/// What a lock space replies to a line of a lock script.
#[derive(Clone, Copy, PartialEq, Eq, Debug)]
pub enum LockReply {
    /// The request, or the conversion, waits.
    Asked,
    /// The node holds the mode, which it got from a queue or at once.
    Granted { node: NodeId, mode: Mode },
    /// The node holds the mode to which it converted.
    Converted,
    Released,
    /// The node is dead.
    Died,
    /// The node that waits for what another holds, if one does.
    Calls(Option<NodeId>),
    Refused(LockError),
}

/// The text of a reply, without a line feed.
pub fn lock_reply_text(alloc: Global, r: &LockReply) -> Result<String, AllocError>
    ensures { IfOk result (λ t. string_bytes t ≡ reply_line r.now) }
{
    reply_line(r).text(alloc)
}

fn reply_line(r: &LockReply) -> Line<'static>
    ensures { line_text result ≡ reply_line r.now }
{
    match r {
        LockReply::Asked => Name("asked"),
        LockReply::Granted { node, mode } => {
            Two("granted", Number(*node as u64), Word(mode_word(*mode)))
        }
        LockReply::Converted => Name("converted"),
        LockReply::Released => Name("released"),
        LockReply::Died => Name("done"),
        LockReply::Calls(caller) => One("calls", caller_field(*caller)),
        LockReply::Refused(why) => refused_line(why),
    }
}

fn caller_field(caller: Option<NodeId>) -> Field<'static>
    ensures { field_text result ≡ caller_word caller }
{
    match caller {
        Some(node) => Number(node as u64),
        None => Word("-"),
    }
}

/// The line of what refused a call.
pub fn refused_line(why: &LockError) -> Line<'static>
    ensures { line_text result ≡ line (codes "refused") (lock_refusal_values why.now) }
{
    match why {
        LockError::NotFree => One("refused", Word("not-free")),
        LockError::NotHeld => One("refused", Word("not-held")),
        LockError::AlreadyAsked => One("refused", Word("already-asked")),
        LockError::Blocked { holder, mode } => Three(
            "refused",
            Word("blocked"),
            Number(*holder as u64),
            Word(mode_word(*mode)),
        ),
        LockError::NothingAsked => One("refused", Word("nothing-asked")),
        LockError::NotGrantable { holder, mode } => Three(
            "refused",
            Word("not-grantable"),
            Number(*holder as u64),
            Word(mode_word(*mode)),
        ),
    }
}
