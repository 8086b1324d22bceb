// The words of modes, kinds of messages, parts of a node, phases and roles.
ghost use Rattle.std.specs.Prelude.{◌≡◌};
ghost use Rattle.report_text.specs.Fields.{field_text};
ghost use Rattle.report_text.specs.Words.{mode_word, kind_word, part_word, phase_word, role_word};

use crate::line::Field;
use dlm_modes::Mode;
use mdc_types::{Part, Role, Word};

pub fn mode_word(mode: Mode) -> &'static str
    ensures { result.now ≡ mode_word mode }
{
    match mode {
        Mode::NL => "NL",
        Mode::CR => "CR",
        Mode::CW => "CW",
        Mode::PR => "PR",
        Mode::PW => "PW",
        Mode::EX => "EX",
    }
}

/// The word of a message's kind, or the number of one that isn't known.
pub fn kind_field(kind: u8) -> Field<'static>
    ensures { field_text result ≡ kind_word kind }
{
    match kind {
        0 => Field::Word("metadata-updated"),
        1 => Field::Word("resyncing"),
        2 => Field::Word("newdisk"),
        3 => Field::Word("remove"),
        4 => Field::Word("re-add"),
        5 => Field::Word("bitmap-needs-sync"),
        6 => Field::Word("change-capacity"),
        _ => Field::Number(kind as u64),
    }
}

pub fn part_word(part: Part) -> &'static str
    ensures { result.now ≡ part_word part }
{
    match part {
        Part::State => "state",
        Part::Sender => "sender",
        Part::Receiver => "receiver",
        Part::Copy => "copy",
        Part::Recovery => "recovery",
        Part::Addition => "addition",
    }
}

pub fn phase_word(phase: Word) -> &'static str
    ensures { result.now ≡ phase_word phase }
{
    match phase {
        Word::Out => "out",
        Word::Joining => "joining",
        Word::Loaded => "loaded",
        Word::Up => "up",
        Word::Idle => "idle",
        Word::TokenAsked => "token-asked",
        Word::TokenHeld => "token-held",
        Word::MessageAsked => "message-asked",
        Word::MessageHeld => "message-held",
        Word::Offered => "offered",
        Word::Published => "published",
        Word::Granted => "granted",
        Word::Taken => "taken",
        Word::Waiting => "waiting",
        Word::Ready => "ready",
        Word::Nothing => "none",
        Word::Asked => "asked",
        Word::Held => "held",
        Word::Pass => "pass",
        Word::Window => "window",
        Word::Buffer => "buffer",
        Word::Open => "open",
        Word::Announced => "announced",
        Word::Removing => "removing",
        Word::ReAdd => "readd",
        Word::Again => "again",
    }
}

pub fn role_word(role: Role) -> &'static str
    ensures { result.now ≡ role_word role }
{
    match role {
        Role::Working => "working",
        Role::Rebuilding => "rebuilding",
        Role::Faulty => "faulty",
        Role::Spare => "spare",
    }
}
