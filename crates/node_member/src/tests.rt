use crate::{MemberError, Record};
use mdc_types::NodeId;
use std::process::Abort;

#[derive(Clone, Copy)]
enum Call {
    Join(NodeId),
    Leave(NodeId, bool),
    Die(NodeId),
    Begin(NodeId, NodeId),
    Recovered(NodeId),
}

fn error_of(rt: &impl Abort, record: &mut Record, call: Call) -> Option<MemberError> {
    match call {
        Call::Join(n) => {
            assert!(rt; n < 16);
            record.join(n).err()
        }
        Call::Leave(n, clean) => {
            assert!(rt; n < 16);
            assert!(rt; record.live(n));
            record.leave(n, clean);
            None
        }
        Call::Die(n) => {
            assert!(rt; n < 16);
            record.die(n).err()
        }
        Call::Begin(n, d) => {
            assert!(rt; n < 16 && d < 16);
            record.begin(n, d).err()
        }
        Call::Recovered(d) => {
            assert!(rt; d < 16);
            assert!(rt; record.pending(d));
            record.recovered(d);
            None
        }
    }
}

#[test]
fn calls(rt: HostRuntime) {
    // Nodes 0 to 3 and 15 are live, and slot 8 is pending.
    let mut record = Record::new(0x800f, 0x0100, 5);
    // A call, its error, and then the heir of slot 3.
    for (line, (call, error, heir)) in [
        (Call::Join(0), Some(MemberError::SlotLive(0)), None),
        (Call::Join(8), Some(MemberError::SlotPending(8)), None),
        (Call::Die(8), Some(MemberError::NotUp(8)), None),
        (Call::Begin(0, 3), Some(MemberError::NotPending(3)), None),
        (Call::Die(3), None, None),
        (Call::Die(3), Some(MemberError::Fenced(3)), None),
        (Call::Join(3), Some(MemberError::Fenced(3)), None),
        (Call::Begin(2, 3), None, Some(2)),
        // While the heir lives another may begin, and is the heir.
        (Call::Begin(1, 3), None, Some(1)),
        (Call::Begin(2, 3), None, Some(2)),
        // An heir that dies is inherited from itself, before slot 3 goes on.
        (Call::Die(2), None, Some(2)),
        (
            Call::Begin(1, 3),
            Some(MemberError::HeirPending(2)),
            Some(2),
        ),
        (Call::Begin(1, 2), None, Some(2)),
        (Call::Leave(1, false), None, Some(2)),
        (Call::Join(1), Some(MemberError::SlotPending(1)), Some(2)),
        (
            Call::Begin(0, 2),
            Some(MemberError::HeirPending(1)),
            Some(2),
        ),
        (Call::Begin(0, 1), None, Some(2)),
        (Call::Recovered(1), None, Some(2)),
        (Call::Begin(0, 2), None, Some(2)),
        (Call::Recovered(2), None, Some(2)),
        (Call::Begin(0, 3), None, Some(0)),
        (Call::Recovered(3), None, None),
        (Call::Join(3), None, None),
        (Call::Leave(15, true), None, None),
        (Call::Join(15), None, None),
    ]
    .iter()
    .enumerate()
    {
        assert_eq!(rt; error_of(&rt, &mut record, *call), *error, "line {line}");
        assert_eq!(rt; record.heir(3), *heir, "line {line}");
    }
    assert!(rt; record.pending(8) && !record.fenced(8) && !record.dead(3) && !record.live(2));
    // Slot 0 waits for its heir's own slot.
    for call in [Call::Die(0), Call::Begin(3, 0), Call::Die(3)] {
        assert_eq!(rt; error_of(&rt, &mut record, call), None);
    }
    assert_eq!(rt;
        (record.first_pending(), record.first_to_begin()),
        (Some(0), Some(3))
    );
}

#[test]
fn numbers(rt: HostRuntime) {
    let mut record = Record::new(1, 0, 5);
    let stale = |read, completed| Some(MemberError::Stale { read, completed });
    assert_eq!(rt; record.fresh(4).err(), stale(4, 5));
    assert_eq!(rt; record.fresh(5).err(), None);
    assert!(rt; record.drawn() == 5);
    assert_eq!(rt; record.draw(), 6);
    assert_eq!(rt; record.fresh(5).err(), None);
    record.complete(6);
    assert_eq!(rt; record.fresh(5).err(), stale(5, 6));
    assert_eq!(rt; record.fresh(7).err(), None);
    assert_eq!(rt; (record.drawn(), record.completed()), (6, 6));
}
