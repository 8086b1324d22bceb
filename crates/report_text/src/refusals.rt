ghost use Rattle.std.specs.Prelude.{◌≡◌, IfOk, string_bytes};
ghost use Rattle.report_text.specs.Fields.{line_text};
ghost use Rattle.report_text.specs.Refusals.{refusal_line};

use crate::line::Field::{Lock, Number, Word};
use crate::line::Line::{self, Name, One, Two};
use crate::words::{mode_word, part_word, phase_word, role_word};
use mdc_types::Refusal;
use std::alloc::{AllocError, Global};

/// The text of a refusal: its name, and its values, each after one blank. It has no line feed.
pub fn refusal_text(alloc: Global, r: &Refusal) -> Result<String, AllocError>
    ensures { IfOk result (λ t. string_bytes t ≡ refusal_line r.now) }
{
    refusal_line(r).text(alloc)
}

fn refusal_line(r: &Refusal) -> Line<'static>
    ensures { line_text result ≡ refusal_line r.now }
{
    match r {
        Refusal::NoNode(n) => One("no-node", Number(*n as u64)),
        Refusal::Fenced(n) => One("fenced", Number(*n as u64)),
        Refusal::NotUp(n) => One("not-up", Number(*n as u64)),
        Refusal::NoLeg(l) => One("no-leg", Number(*l as u64)),
        Refusal::NotPhase(part, phase) => Two(
            "not-phase",
            Word(part_word(*part)),
            Word(phase_word(*phase)),
        ),
        Refusal::NoSector(s) => One("no-sector", Number(*s as u64)),
        Refusal::NoPage(p) => One("no-page", Number(*p as u64)),
        Refusal::NoChunk(c) => One("no-chunk", Number(*c as u64)),
        Refusal::NoWrite(k) => One("no-write", Number(*k as u64)),
        Refusal::NoRead(k) => One("no-read", Number(*k as u64)),
        Refusal::NothingAsked(res) => One("nothing-asked", Lock(*res)),
        Refusal::NotGrantable { holder, mode } => Two(
            "not-grantable",
            Number(*holder as u64),
            Word(mode_word(*mode)),
        ),
        Refusal::Blocked(n) => One("blocked", Number(*n as u64)),
        Refusal::ReceiverBusy(phase) => One("receiver-busy", Word(phase_word(*phase))),
        Refusal::NotCalled => Name("not-called"),
        Refusal::SenderGone(n) => One("sender-gone", Number(*n as u64)),
        Refusal::SenderLive(n) => One("sender-live", Number(*n as u64)),
        Refusal::NotGranted(res) => One("not-granted", Lock(*res)),
        Refusal::SlotLive(n) => One("slot-live", Number(*n as u64)),
        Refusal::SlotPending(n) => One("slot-pending", Number(*n as u64)),
        Refusal::NotPending(d) => One("not-pending", Number(*d as u64)),
        Refusal::HeirPending(h) => One("heir-pending", Number(*h as u64)),
        Refusal::NotLoaded(l) => One("not-loaded", Number(*l as u64)),
        Refusal::Stale { read, completed } => Two("stale", Number(*read), Number(*completed)),
        Refusal::Missing(l) => One("missing", Number(*l as u64)),
        Refusal::NotNeeded => Name("not-needed"),
        Refusal::Unacked(l) => One("unacked", Number(*l as u64)),
        Refusal::NotRole(l, role) => Two("not-role", Number(*l as u64), Word(role_word(*role))),
        Refusal::NotCopied(l) => One("not-copied", Number(*l as u64)),
        Refusal::Pending(d) => One("pending", Number(*d as u64)),
        Refusal::PathCut(l) => One("path-cut", Number(*l as u64)),
        Refusal::Draining(k) => One("draining", Number(*k as u64)),
        Refusal::Reading(k) => One("reading", Number(*k as u64)),
        Refusal::Unclean(c) => One("unclean", Number(*c as u64)),
        Refusal::PageOld(l) => One("page-old", Number(*l as u64)),
        Refusal::NotTarget(l) => One("not-target", Number(*l as u64)),
        Refusal::NotWorking(l) => One("not-working", Number(*l as u64)),
        Refusal::NotWritten(l) => One("not-written", Number(*l as u64)),
        Refusal::NotRead(l) => One("not-read", Number(*l as u64)),
        Refusal::BitMissing(l) => One("bit-missing", Number(*l as u64)),
        Refusal::Suspended(n) => One("suspended", Number(*n as u64)),
        Refusal::InFlight(n) => One("in-flight", Number(*n as u64)),
        Refusal::Full(n) => One("full", Number(*n as u64)),
        Refusal::Needed(c) => One("needed", Number(*c as u64)),
        Refusal::Degraded(l) => One("degraded", Number(*l as u64)),
        Refusal::Window(lo) => One("window", Number(*lo as u64)),
        Refusal::NothingLeft => Name("nothing-left"),
        Refusal::NoEvents(e) => One("no-events", Number(*e)),
        Refusal::NoSize(z) => One("no-size", Number(*z as u64)),
        Refusal::NoExtent(e) => One("no-extent", Number(*e as u64)),
        Refusal::NotHolding(e) => One("not-holding", Number(*e as u64)),
        Refusal::Rebuilding(n) => One("rebuilding", Number(*n as u64)),
        Refusal::LinkEmpty { from, to } => Two(
            "link-empty",
            Number(*from as u64),
            Number(*to as u64),
        ),
        Refusal::Waiting => Name("waiting"),
    }
}
