ghost use Rattle.std.specs.Prelude.{◌≡◌, ◌∷◌, IfOk, string_bytes, codes, decimal};
ghost use Rattle.report_text.specs.Fields.{line_text};
ghost use Rattle.report_text.specs.Lines.{line};
ghost use Rattle.report_text.specs.Events.{wish_values, event_line};

use crate::line::Field::{Lock, Number, Value, Word};
use crate::line::Line::{self, Four, One, Three, Two};
use mdc_types::{Event, NodeId, Wish};
use std::alloc::{AllocError, Global};

/// The text of an event: its line in a script, without a line feed.
pub fn event_text(alloc: Global, e: &Event) -> Result<String, AllocError>
    ensures { IfOk result (λ t. string_bytes t ≡ event_line e.now) }
{
    event_line(e).text(alloc)
}

fn event_line(e: &Event) -> Line<'_>
    ensures { line_text result ≡ event_line e.now }
{
    match e {
        Event::Cut(n, l) => Two("cut", Number(*n as u64), Number(*l as u64)),
        Event::Mend(n, l) => Two("mend", Number(*n as u64), Number(*l as u64)),
        Event::Die(n) => One("die", Number(*n as u64)),
        Event::Grant(res) => One("grant", Lock(*res)),
        Event::Join(n) => One("join", Number(*n as u64)),
        Event::Load(n, l) => Two("load", Number(*n as u64), Number(*l as u64)),
        Event::Up(n) => One("up", Number(*n as u64)),
        Event::Leave(n) => One("leave", Number(*n as u64)),
        Event::AskToken(n) => One("token", Number(*n as u64)),
        Event::AskMessage(n) => One("message", Number(*n as u64)),
        Event::Offer(n, wish) => offer_line(*n, wish),
        Event::WriteSuper(n, l) => Two("sb", Number(*n as u64), Number(*l as u64)),
        Event::Publish(n) => One("publish", Number(*n as u64)),
        Event::FinishRound(n) => One("finish", Number(*n as u64)),
        Event::Quit(n) => One("quit", Number(*n as u64)),
        Event::Take(n) => One("take", Number(*n as u64)),
        Event::Processed(n) => One("processed", Number(*n as u64)),
        Event::Resume(n) => One("resume", Number(*n as u64)),
        Event::DropMessage(n) => One("drop", Number(*n as u64)),
        Event::AskWrite(n, s, v) => Three("w", Number(*n as u64), Number(*s as u64), Value(v)),
        Event::WritePage(n, p, l) => Three(
            "bit",
            Number(*n as u64),
            Number(*p as u64),
            Number(*l as u64),
        ),
        Event::Out(n, k, l) => Three(
            "out",
            Number(*n as u64),
            Number(*k as u64),
            Number(*l as u64),
        ),
        Event::EndWrite(n, k) => Two("ok", Number(*n as u64), Number(*k as u64)),
        Event::BreakWrite(n, k) => Two("break", Number(*n as u64), Number(*k as u64)),
        Event::AskRead(n, s) => Two("r", Number(*n as u64), Number(*s as u64)),
        Event::In(n, k) => Two("in", Number(*n as u64), Number(*k as u64)),
        Event::Clear(n, c) => Two("clear", Number(*n as u64), Number(*c as u64)),
        Event::AskResync(n) => One("resync", Number(*n as u64)),
        Event::Gather(n) => One("gather", Number(*n as u64)),
        Event::PassOwn(n) => Two("pass", Number(*n as u64), Word("own")),
        Event::PassFull(n) => Two("pass", Number(*n as u64), Word("full")),
        Event::PassAgain(n, l) => Three(
            "pass",
            Number(*n as u64),
            Word("again"),
            Number(*l as u64),
        ),
        Event::CopyIn(n) => One("ci", Number(*n as u64)),
        Event::CopyOut(n, l) => Two("co", Number(*n as u64), Number(*l as u64)),
        Event::Settle(n) => One("settle", Number(*n as u64)),
        Event::EndPass(n) => One("done", Number(*n as u64)),
        Event::Recover(n, d) => Two("rec", Number(*n as u64), Number(*d as u64)),
        Event::SlotIn(n, p, l) => Three(
            "slotin",
            Number(*n as u64),
            Number(*p as u64),
            Number(*l as u64),
        ),
        Event::SlotOut(n, p, l) => Three(
            "slotout",
            Number(*n as u64),
            Number(*p as u64),
            Number(*l as u64),
        ),
        Event::Recovered(n) => One("recovered", Number(*n as u64)),
        Event::LockDevice(n) => One("lockdev", Number(*n as u64)),
    }
}

fn offer_line(n: NodeId, wish: &Wish) -> Line<'static>
    ensures { line_text result ≡ line (codes "offer") (decimal n ∷ wish_values wish.now) }
{
    let node = Number(n as u64);
    match wish {
        Wish::Meta => Two("offer", node, Word("meta")),
        Wish::Spare(l) => Four(
            "offer",
            node,
            Word("meta"),
            Word("spare"),
            Number(*l as u64),
        ),
        Wish::Rebuild(l) => Four(
            "offer",
            node,
            Word("meta"),
            Word("rebuild"),
            Number(*l as u64),
        ),
        Wish::Work(l) => Four("offer", node, Word("meta"), Word("work"), Number(*l as u64)),
        Wish::Range(range) => Four(
            "offer",
            node,
            Word("range"),
            Number(range.lo as u64),
            Number(range.hi as u64),
        ),
        Wish::NewDisk(l) => Three("offer", node, Word("newdisk"), Number(*l as u64)),
        Wish::Remove(l) => Three("offer", node, Word("remove"), Number(*l as u64)),
        Wish::ReAdd(l) => Three("offer", node, Word("readd"), Number(*l as u64)),
        Wish::Unclean => Two("offer", node, Word("unclean")),
        Wish::Grow(size) => Three("offer", node, Word("grow"), Number(*size as u64)),
    }
}
