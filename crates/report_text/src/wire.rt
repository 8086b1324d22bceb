ghost use Rattle.std.specs.Prelude.{◌≡◌, [], ◌∷◌, IfOk, codes, string_bytes};
ghost use Rattle.report_text.specs.Fields.{field_text};
ghost use Rattle.report_text.specs.Lines.{line};
ghost use Rattle.report_text.specs.Refusals.{refusal_line};
ghost use Rattle.report_text.specs.Wire.{taken_word, held_word, wire_reply_line};

use crate::line::Field::{self, Number, Word};
use crate::line::Line::{Name, One, Two};
use crate::locks::refused_line;
use crate::refusals::refusal_text;
use crate::words::mode_word;
use dlm_modes::Mode;
use dlm_space::LockError;
use lock_wire::Taken;
use mdc_types::{NodeId, Refusal};
use std::alloc::{AllocError, Global};

/// What a lock space that is spread over nodes replies to a line of a wire script.
#[derive(Clone, Copy)]
pub enum WireReply {
    /// The node waits for what it asked, or to what it converts.
    Asked,
    /// The node holds the mode to which it converted.
    Converted,
    Released,
    /// A packet of this kind was taken.
    Took(Taken),
    /// The node's head was served.
    Granted { node: NodeId, mode: Mode },
    /// The node is dead.
    Died,
    /// The mode that the node holds, if it holds one.
    Holds { node: NodeId, held: Option<Mode> },
    /// A guard of nodes, links and masters refused the call.
    Refused(Refusal),
    /// The node's local state, or the master's table, refused it.
    Denied(LockError),
}

/// The text of a reply, without a line feed.
pub fn wire_reply_text(alloc: Global, r: &WireReply) -> Result<String, AllocError>
    ensures { IfOk result (λ t. string_bytes t ≡ wire_reply_line r.now) }
{
    match r {
        WireReply::Asked => Name("asked").text(alloc),
        WireReply::Converted => Name("converted").text(alloc),
        WireReply::Released => Name("released").text(alloc),
        WireReply::Took(kind) => One("took", Word(taken_word(*kind))).text(alloc),
        WireReply::Granted { node, mode } => {
            Two("granted", Number(*node as u64), Word(mode_word(*mode))).text(alloc)
        }
        WireReply::Died => Name("done").text(alloc),
        WireReply::Holds { node, held } => {
            Two("holds", Number(*node as u64), held_field(*held)).text(alloc)
        }
        WireReply::Refused(why) => refused_text(alloc, why),
        WireReply::Denied(why) => refused_line(why).text(alloc),
    }
}

fn taken_word(kind: Taken) -> &'static str
    ensures { result.now ≡ taken_word kind }
{
    match kind {
        Taken::Ask => "ask",
        Taken::Convert => "convert",
        Taken::Release => "release",
        Taken::Granted => "granted",
        Taken::Called => "called",
        Taken::Report => "report",
    }
}

fn held_field(held: Option<Mode>) -> Field<'static>
    ensures { field_text result ≡ held_word held }
{
    match held {
        Some(mode) => Word(mode_word(mode)),
        None => Word("-"),
    }
}

fn refused_text(alloc: Global, why: &Refusal) -> Result<String, AllocError>
    ensures { IfOk result (λ t.
        string_bytes t ≡ line (codes "refused") (refusal_line why.now ∷ [])) }
{
    let mut text = String::from_str(alloc, "refused ")?;
    text.push_str(refusal_text(alloc, why)?.as_str())?;
    Ok(text)
}
