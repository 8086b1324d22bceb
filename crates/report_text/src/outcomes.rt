ghost use Rattle.std.specs.Prelude.{◌≡◌, [], ◌∷◌, IfOk, string_bytes, codes, decimal};
ghost use Rattle.report_text.specs.Fields.{line_text};
ghost use Rattle.report_text.specs.Lines.{line};
ghost use Rattle.report_text.specs.Outcomes.{outcome_line};
ghost use Rattle.report_text.specs.Words.{kind_word};

use crate::line::Field::{Number, Value, Word};
use crate::line::Line::{self, Name, One, Two};
use crate::words::{kind_field, mode_word};
use mdc_types::{NodeId, Outcome};
use std::alloc::{AllocError, Global};

/// The text of an outcome, without a line feed.
pub fn outcome_text(alloc: Global, o: &Outcome) -> Result<String, AllocError>
    ensures { IfOk result (λ t. string_bytes t ≡ outcome_line o.now) }
{
    outcome_line(o).text(alloc)
}

fn outcome_line(o: &Outcome) -> Line<'_>
    ensures { line_text result ≡ outcome_line o.now }
{
    match o {
        Outcome::Done | Outcome::Settled { .. } | Outcome::Page(_) => Name("done"),
        Outcome::Write(k) => One("write", Number(*k as u64)),
        Outcome::Read(k) => One("read", Number(*k as u64)),
        Outcome::Value { leg, value } => Two("value", Number(*leg as u64), Value(value)),
        Outcome::Lost(l) => One("lost", Number(*l as u64)),
        Outcome::Io(l) => One("io", Number(*l as u64)),
        Outcome::Granted { node, mode } => {
            Two("granted", Number(*node as u64), Word(mode_word(*mode)))
        }
        Outcome::Events(e) => One("events", Number(*e)),
        Outcome::Message { kind, sender } => message_line(*kind, *sender),
        Outcome::Whole => Name("whole"),
        Outcome::Broken => Name("broken"),
        Outcome::Super { events, .. } => One("super", Number(*events)),
        Outcome::Unread(l) => One("unread", Number(*l as u64)),
        Outcome::Unreached(l) => One("unreached", Number(*l as u64)),
    }
}

fn message_line(kind: u8, sender: NodeId) -> Line<'static>
    ensures { line_text result ≡ line (codes "message") (kind_word kind ∷ decimal sender ∷ []) }
{
    let kind = kind_field(kind);
    Two("message", kind, Number(sender as u64))
}
