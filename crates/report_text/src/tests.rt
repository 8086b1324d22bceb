use super::*;
use dlm_modes::Mode;
use dlm_space::LockError;
use leg_failure::View;
use lock_wire::Taken;
use mdc_types::{
    Event, Geometry, NodeState, Outcome, Part, Range, Refusal, Res, Role, Roles, Sector, Wish, Word,
};
use node_bitmaps::NodeMap;
use node_member::Record;
use std::alloc::Global;
use std::test::Fail;

const OUTCOMES: &[(Outcome, &str)] = &[
    (Outcome::Done, "done"),
    (Outcome::Write(4294967295), "write 4294967295"),
    (Outcome::Read(0), "read 0"),
    (Outcome::Lost(3), "lost 3"),
    (Outcome::Io(255), "io 255"),
    (
        Outcome::Granted {
            node: 2,
            mode: Mode::NL,
        },
        "granted 2 NL",
    ),
    (
        Outcome::Granted {
            node: 2,
            mode: Mode::CR,
        },
        "granted 2 CR",
    ),
    (
        Outcome::Granted {
            node: 2,
            mode: Mode::CW,
        },
        "granted 2 CW",
    ),
    (
        Outcome::Granted {
            node: 2,
            mode: Mode::PR,
        },
        "granted 2 PR",
    ),
    (
        Outcome::Granted {
            node: 2,
            mode: Mode::PW,
        },
        "granted 2 PW",
    ),
    (
        Outcome::Granted {
            node: 15,
            mode: Mode::EX,
        },
        "granted 15 EX",
    ),
    (
        Outcome::Events(18446744073709551615),
        "events 18446744073709551615",
    ),
    (
        Outcome::Message { kind: 0, sender: 1 },
        "message metadata-updated 1",
    ),
    (
        Outcome::Message { kind: 1, sender: 1 },
        "message resyncing 1",
    ),
    (Outcome::Message { kind: 2, sender: 1 }, "message newdisk 1"),
    (Outcome::Message { kind: 3, sender: 1 }, "message remove 1"),
    (Outcome::Message { kind: 4, sender: 1 }, "message re-add 1"),
    (
        Outcome::Message { kind: 5, sender: 1 },
        "message bitmap-needs-sync 1",
    ),
    (
        Outcome::Message { kind: 6, sender: 1 },
        "message change-capacity 1",
    ),
    (Outcome::Message { kind: 7, sender: 1 }, "message 7 1"),
    (Outcome::Whole, "whole"),
    (Outcome::Broken, "broken"),
    (
        Outcome::Super {
            events: 12,
            block: Sector::ZERO,
        },
        "super 12",
    ),
    (Outcome::Unread(6), "unread 6"),
    (Outcome::Unreached(7), "unreached 7"),
    (Outcome::Page(Sector::ZERO), "done"),
    (
        Outcome::Settled {
            sector: 1,
            value: Sector::ZERO,
        },
        "done",
    ),
];

fn sector(front: &[u8]) -> Sector {
    let mut sector = Sector::ZERO;
    for (to, from) in sector.bytes.iter_mut().zip(front) {
        *to = *from;
    }
    sector
}

// The first bytes of a sector, and the text.
const VALUES: &[(&[u8], &str)] = &[
    (b"hi", "value 2 6869"),
    (b"", "value 2 -"),
    (&[0, 0, 16, 0], "value 2 000010"),
    (&[0xff, 0x0a, 0xbc, 0xde], "value 2 ff0abcde"),
];

#[test]
fn outcomes(rt: HostRuntime) -> Result<(), Fail> {
    for (outcome, want) in OUTCOMES {
        assert_eq!(rt; outcome_text(rt.alloc(), outcome)?.as_str(), *want);
    }
    for (front, want) in VALUES {
        let outcome = Outcome::Value {
            leg: 2,
            value: sector(front),
        };
        assert_eq!(rt; outcome_text(rt.alloc(), &outcome)?.as_str(), *want);
    }
    Ok(())
}

const REFUSALS: &[(Refusal, &str)] = &[
    (Refusal::NoNode(16), "no-node 16"),
    (Refusal::Fenced(1), "fenced 1"),
    (Refusal::NotUp(1), "not-up 1"),
    (Refusal::NoLeg(255), "no-leg 255"),
    (
        Refusal::NotPhase(Part::State, Word::Out),
        "not-phase state out",
    ),
    (
        Refusal::NotPhase(Part::Sender, Word::Joining),
        "not-phase sender joining",
    ),
    (
        Refusal::NotPhase(Part::Receiver, Word::Loaded),
        "not-phase receiver loaded",
    ),
    (Refusal::NotPhase(Part::Copy, Word::Up), "not-phase copy up"),
    (
        Refusal::NotPhase(Part::Recovery, Word::Idle),
        "not-phase recovery idle",
    ),
    (
        Refusal::NotPhase(Part::Addition, Word::TokenAsked),
        "not-phase addition token-asked",
    ),
    (
        Refusal::ReceiverBusy(Word::TokenHeld),
        "receiver-busy token-held",
    ),
    (
        Refusal::ReceiverBusy(Word::MessageAsked),
        "receiver-busy message-asked",
    ),
    (
        Refusal::ReceiverBusy(Word::MessageHeld),
        "receiver-busy message-held",
    ),
    (
        Refusal::ReceiverBusy(Word::Offered),
        "receiver-busy offered",
    ),
    (
        Refusal::ReceiverBusy(Word::Published),
        "receiver-busy published",
    ),
    (
        Refusal::ReceiverBusy(Word::Granted),
        "receiver-busy granted",
    ),
    (Refusal::ReceiverBusy(Word::Taken), "receiver-busy taken"),
    (
        Refusal::ReceiverBusy(Word::Waiting),
        "receiver-busy waiting",
    ),
    (Refusal::ReceiverBusy(Word::Ready), "receiver-busy ready"),
    (Refusal::ReceiverBusy(Word::Nothing), "receiver-busy none"),
    (Refusal::ReceiverBusy(Word::Asked), "receiver-busy asked"),
    (Refusal::ReceiverBusy(Word::Held), "receiver-busy held"),
    (Refusal::ReceiverBusy(Word::Pass), "receiver-busy pass"),
    (Refusal::ReceiverBusy(Word::Window), "receiver-busy window"),
    (Refusal::ReceiverBusy(Word::Buffer), "receiver-busy buffer"),
    (Refusal::ReceiverBusy(Word::Open), "receiver-busy open"),
    (
        Refusal::ReceiverBusy(Word::Announced),
        "receiver-busy announced",
    ),
    (
        Refusal::ReceiverBusy(Word::Removing),
        "receiver-busy removing",
    ),
    (Refusal::ReceiverBusy(Word::ReAdd), "receiver-busy readd"),
    (Refusal::ReceiverBusy(Word::Again), "receiver-busy again"),
    (Refusal::NoSector(4294967295), "no-sector 4294967295"),
    (Refusal::NoPage(9), "no-page 9"),
    (Refusal::NoChunk(9), "no-chunk 9"),
    (Refusal::NoWrite(9), "no-write 9"),
    (Refusal::NoRead(9), "no-read 9"),
    (
        Refusal::NothingAsked(Res::Bitmap(0)),
        "nothing-asked bitmap000",
    ),
    (
        Refusal::NothingAsked(Res::Bitmap(7)),
        "nothing-asked bitmap007",
    ),
    (
        Refusal::NothingAsked(Res::Bitmap(15)),
        "nothing-asked bitmap015",
    ),
    (
        Refusal::NothingAsked(Res::Bitmap(255)),
        "nothing-asked bitmap255",
    ),
    (Refusal::NothingAsked(Res::Token), "nothing-asked token"),
    (Refusal::NothingAsked(Res::Message), "nothing-asked message"),
    (Refusal::NothingAsked(Res::Ack), "nothing-asked ack"),
    (
        Refusal::NothingAsked(Res::NoNewDev),
        "nothing-asked no-new-dev",
    ),
    (Refusal::NothingAsked(Res::Resync), "nothing-asked resync"),
    (
        Refusal::NotGrantable {
            holder: 3,
            mode: Mode::PR,
        },
        "not-grantable 3 PR",
    ),
    (Refusal::Blocked(3), "blocked 3"),
    (Refusal::NotCalled, "not-called"),
    (Refusal::SenderGone(3), "sender-gone 3"),
    (Refusal::SenderLive(3), "sender-live 3"),
    (Refusal::NotGranted(Res::Ack), "not-granted ack"),
    (Refusal::SlotLive(3), "slot-live 3"),
    (Refusal::SlotPending(3), "slot-pending 3"),
    (Refusal::NotPending(3), "not-pending 3"),
    (Refusal::HeirPending(3), "heir-pending 3"),
    (Refusal::NotLoaded(3), "not-loaded 3"),
    (
        Refusal::Stale {
            read: 3,
            completed: 18446744073709551615,
        },
        "stale 3 18446744073709551615",
    ),
    (Refusal::Missing(3), "missing 3"),
    (Refusal::NotNeeded, "not-needed"),
    (Refusal::Unacked(3), "unacked 3"),
    (Refusal::NotRole(3, Role::Working), "not-role 3 working"),
    (
        Refusal::NotRole(3, Role::Rebuilding),
        "not-role 3 rebuilding",
    ),
    (Refusal::NotRole(3, Role::Faulty), "not-role 3 faulty"),
    (Refusal::NotRole(3, Role::Spare), "not-role 3 spare"),
    (Refusal::NotCopied(3), "not-copied 3"),
    (Refusal::Pending(3), "pending 3"),
    (Refusal::PathCut(3), "path-cut 3"),
    (Refusal::Draining(3), "draining 3"),
    (Refusal::Reading(3), "reading 3"),
    (Refusal::Unclean(3), "unclean 3"),
    (Refusal::PageOld(3), "page-old 3"),
    (Refusal::NotTarget(3), "not-target 3"),
    (Refusal::NotWorking(3), "not-working 3"),
    (Refusal::NotWritten(3), "not-written 3"),
    (Refusal::NotRead(3), "not-read 3"),
    (Refusal::BitMissing(3), "bit-missing 3"),
    (Refusal::Suspended(3), "suspended 3"),
    (Refusal::InFlight(3), "in-flight 3"),
    (Refusal::Full(3), "full 3"),
    (Refusal::Needed(3), "needed 3"),
    (Refusal::Degraded(3), "degraded 3"),
    (Refusal::Window(3), "window 3"),
    (Refusal::NothingLeft, "nothing-left"),
    (
        Refusal::NoEvents(18446744073709551615),
        "no-events 18446744073709551615",
    ),
    (Refusal::NoSize(3), "no-size 3"),
    (Refusal::NoExtent(3), "no-extent 3"),
    (Refusal::NotHolding(3), "not-holding 3"),
    (Refusal::Rebuilding(3), "rebuilding 3"),
    (Refusal::LinkEmpty { from: 3, to: 12 }, "link-empty 3 12"),
    (Refusal::Waiting, "waiting"),
];

#[test]
fn refusals(rt: HostRuntime) -> Result<(), Fail> {
    for (refusal, want) in REFUSALS {
        assert_eq!(rt; refusal_text(rt.alloc(), refusal)?.as_str(), *want);
    }
    Ok(())
}

const REPLIES: &[(LockReply, &str)] = &[
    (LockReply::Asked, "asked"),
    (
        LockReply::Granted {
            node: 15,
            mode: Mode::EX,
        },
        "granted 15 EX",
    ),
    (LockReply::Converted, "converted"),
    (LockReply::Released, "released"),
    (LockReply::Died, "done"),
    (LockReply::Calls(Some(12)), "calls 12"),
    (LockReply::Calls(None), "calls -"),
    (LockReply::Refused(LockError::NotFree), "refused not-free"),
    (LockReply::Refused(LockError::NotHeld), "refused not-held"),
    (
        LockReply::Refused(LockError::AlreadyAsked),
        "refused already-asked",
    ),
    (
        LockReply::Refused(LockError::Blocked {
            holder: 10,
            mode: Mode::CW,
        }),
        "refused blocked 10 CW",
    ),
    (
        LockReply::Refused(LockError::NothingAsked),
        "refused nothing-asked",
    ),
    (
        LockReply::Refused(LockError::NotGrantable {
            holder: 0,
            mode: Mode::PR,
        }),
        "refused not-grantable 0 PR",
    ),
];

#[test]
fn replies(rt: HostRuntime) -> Result<(), Fail> {
    for (reply, want) in REPLIES {
        assert_eq!(rt; lock_reply_text(rt.alloc(), reply)?.as_str(), *want);
    }
    Ok(())
}

const WIRE_REPLIES: &[(WireReply, &str)] = &[
    (WireReply::Asked, "asked"),
    (WireReply::Converted, "converted"),
    (WireReply::Released, "released"),
    (WireReply::Took(Taken::Ask), "took ask"),
    (WireReply::Took(Taken::Convert), "took convert"),
    (WireReply::Took(Taken::Release), "took release"),
    (WireReply::Took(Taken::Granted), "took granted"),
    (WireReply::Took(Taken::Called), "took called"),
    (WireReply::Took(Taken::Report), "took report"),
    (
        WireReply::Granted {
            node: 15,
            mode: Mode::PW,
        },
        "granted 15 PW",
    ),
    (WireReply::Died, "done"),
    (
        WireReply::Holds {
            node: 255,
            held: None,
        },
        "holds 255 -",
    ),
    (
        WireReply::Holds {
            node: 0,
            held: Some(Mode::NL),
        },
        "holds 0 NL",
    ),
    (
        WireReply::Refused(Refusal::LinkEmpty { from: 2, to: 1 }),
        "refused link-empty 2 1",
    ),
    (WireReply::Refused(Refusal::Waiting), "refused waiting"),
    (
        WireReply::Denied(LockError::NothingAsked),
        "refused nothing-asked",
    ),
];

#[test]
fn wire_replies(rt: HostRuntime) -> Result<(), Fail> {
    for (reply, want) in WIRE_REPLIES {
        assert_eq!(rt; wire_reply_text(rt.alloc(), reply)?.as_str(), *want);
    }
    Ok(())
}

const EVENTS: &[(Event, &str)] = &[
    (Event::Cut(1, 2), "cut 1 2"),
    (Event::Mend(1, 2), "mend 1 2"),
    (Event::Die(1), "die 1"),
    (Event::Grant(Res::Bitmap(11)), "grant bitmap011"),
    (Event::Join(255), "join 255"),
    (Event::Load(1, 2), "load 1 2"),
    (Event::Up(1), "up 1"),
    (Event::Leave(1), "leave 1"),
    (Event::AskToken(1), "token 1"),
    (Event::AskMessage(1), "message 1"),
    (Event::Offer(1, Wish::Meta), "offer 1 meta"),
    (Event::Offer(1, Wish::Spare(2)), "offer 1 meta spare 2"),
    (Event::Offer(1, Wish::Rebuild(2)), "offer 1 meta rebuild 2"),
    (Event::Offer(1, Wish::Work(2)), "offer 1 meta work 2"),
    (
        Event::Offer(
            1,
            Wish::Range(Range {
                lo: 16,
                hi: 4294967295,
            }),
        ),
        "offer 1 range 16 4294967295",
    ),
    (Event::Offer(1, Wish::NewDisk(2)), "offer 1 newdisk 2"),
    (Event::Offer(1, Wish::Remove(2)), "offer 1 remove 2"),
    (Event::Offer(1, Wish::ReAdd(2)), "offer 1 readd 2"),
    (Event::Offer(1, Wish::Unclean), "offer 1 unclean"),
    (Event::Offer(1, Wish::Grow(64)), "offer 1 grow 64"),
    (Event::WriteSuper(1, 2), "sb 1 2"),
    (Event::Publish(1), "publish 1"),
    (Event::FinishRound(1), "finish 1"),
    (Event::Quit(1), "quit 1"),
    (Event::Take(1), "take 1"),
    (Event::Processed(1), "processed 1"),
    (Event::Resume(1), "resume 1"),
    (Event::DropMessage(1), "drop 1"),
    (Event::AskWrite(1, 30, Sector::ZERO), "w 1 30 -"),
    (Event::WritePage(1, 30, 2), "bit 1 30 2"),
    (Event::Out(1, 30, 2), "out 1 30 2"),
    (Event::EndWrite(1, 30), "ok 1 30"),
    (Event::BreakWrite(1, 30), "break 1 30"),
    (Event::AskRead(1, 30), "r 1 30"),
    (Event::In(1, 30), "in 1 30"),
    (Event::Clear(1, 30), "clear 1 30"),
    (Event::AskResync(1), "resync 1"),
    (Event::Gather(1), "gather 1"),
    (Event::PassOwn(1), "pass 1 own"),
    (Event::PassFull(1), "pass 1 full"),
    (Event::PassAgain(1, 2), "pass 1 again 2"),
    (Event::CopyIn(1), "ci 1"),
    (Event::CopyOut(1, 2), "co 1 2"),
    (Event::Settle(1), "settle 1"),
    (Event::EndPass(1), "done 1"),
    (Event::Recover(1, 2), "rec 1 2"),
    (Event::SlotIn(1, 30, 2), "slotin 1 30 2"),
    (Event::SlotOut(1, 30, 2), "slotout 1 30 2"),
    (Event::Recovered(1), "recovered 1"),
    (Event::LockDevice(1), "lockdev 1"),
];

#[test]
fn events(rt: HostRuntime) -> Result<(), Fail> {
    for (event, want) in EVENTS {
        assert_eq!(rt; event_text(rt.alloc(), event)?.as_str(), *want);
    }
    Ok(())
}

// The texts of all queries, parted by `/`.
fn told(
    alloc: Global,
    state: NodeState,
    view: &View,
    map: &NodeMap,
    record: &Record,
) -> Result<String, Fail> {
    let texts = [
        view_text(alloc, 3, state, view, 4)?,
        size_text(alloc, 3, state, view)?,
        map_text(alloc, 3, map)?,
        slot_text(alloc, 1, 3, map)?,
        record_text(alloc, record)?,
        legal_text(alloc, 12)?,
        bad_text(alloc, 7)?,
    ];
    let mut all = String::new(alloc);
    for text in &texts {
        all.push_str(text.as_str())?;
        all.push_str("/")?;
    }
    Ok(all)
}

#[test]
fn queries(rt: HostRuntime) -> Result<(), Fail> {
    let alloc = rt.alloc();
    let mut roles = Roles {
        legs: [Role::Spare; 8],
    };
    roles.legs[0] = Role::Working;
    roles.legs[1] = Role::Rebuilding;
    let mut view = View::new(roles, 16);
    let mut map = NodeMap::new(alloc, &Geometry::new(2, 16, 4)?)?;
    let mut record = Record::new(0, 0, 1);
    assert_eq!(rt;
        told(alloc, NodeState::Out, &view, &map, &record)?.as_str(),
        "view 3 out/size 3 out/map 3 set - need -/slot 1 3 set -/record live - pending - drawn 1 completed 1/legal 12/bad 7/"
    );
    assert_eq!(rt;
        told(alloc, NodeState::Joining, &view, &map, &record)?.as_str(),
        "view 3 joining/size 3 joining/map 3 set - need -/slot 1 3 set -/record live - pending - drawn 1 completed 1/legal 12/bad 7/"
    );
    view.lose(1);
    roles.legs[2] = Role::Faulty;
    view.take(&roles, 24);
    map.set(3);
    map.set(0);
    map.page_out(0, 1);
    map.set(1);
    map.need(2);
    record.join(15)?;
    record.join(2)?;
    record.join(0)?;
    record.die(2)?;
    record.draw();
    assert_eq!(rt;
        told(alloc, NodeState::Up, &view, &map, &record)?.as_str(),
        "view 3 up WRFS lost 1 unacked 1,2/size 3 24 sure 16/map 3 set 0,1,3 need 2/slot 1 3 set 0,3/record live 0,15 pending 2 drawn 2 completed 1/legal 12/bad 7/"
    );
    Ok(())
}
