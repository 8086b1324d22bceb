use crate::{Taken, Wire, WireEnd};
use dlm_modes::{Block, Mode};
use dlm_space::{Converted, LockError};
use mdc_types::{NodeId, Refusal};
use std::alloc::AllocError;

const TOKEN: usize = 16;

const ACK: usize = 18;

#[derive(Clone, Copy)]
enum Call {
    Ask(NodeId, usize, Mode),
    Convert(NodeId, usize, Mode),
    Release(NodeId, usize),
    Deliver(NodeId, NodeId),
    Serve(usize),
    Die(NodeId),
    Holds(NodeId, usize),
}

#[derive(Clone, Copy, PartialEq, Eq, Debug)]
enum Answer {
    Done,
    Converted(Converted),
    Took(Taken),
    Granted(NodeId, Mode, bool),
    Holds(Option<Mode>),
    NoNode(NodeId),
    Fenced(NodeId),
    NotUp(NodeId),
    Rebuilding(NodeId),
    LinkEmpty(NodeId, NodeId),
    Waiting,
    Lock(LockError),
    Memory,
    Other,
}

fn refused(end: WireEnd) -> Answer {
    match end {
        WireEnd::Refused(Refusal::NoNode(n)) => Answer::NoNode(n),
        WireEnd::Refused(Refusal::Fenced(n)) => Answer::Fenced(n),
        WireEnd::Refused(Refusal::NotUp(n)) => Answer::NotUp(n),
        WireEnd::Refused(Refusal::Rebuilding(n)) => Answer::Rebuilding(n),
        WireEnd::Refused(Refusal::LinkEmpty { from, to }) => Answer::LinkEmpty(from, to),
        WireEnd::Refused(Refusal::Waiting) => Answer::Waiting,
        WireEnd::Refused(_) => Answer::Other,
        WireEnd::Lock(e) => Answer::Lock(e),
        WireEnd::Memory => Answer::Memory,
    }
}

fn done(outcome: Result<(), WireEnd>) -> Answer {
    match outcome {
        Ok(()) => Answer::Done,
        Err(end) => refused(end),
    }
}

fn full(byte: u8) -> Block {
    Block { bytes: [byte; 64] }
}

fn apply(wire: &mut Wire, call: Call) -> Answer {
    match call {
        Call::Ask(n, r, mode) if r < 21 => done(wire.ask(n, r, mode)),
        Call::Convert(n, r, mode) if r < 21 => match wire.convert(n, r, mode, None) {
            Ok(c) => Answer::Converted(c),
            Err(end) => refused(end),
        },
        Call::Release(n, r) if r < 21 => done(wire.release(n, r, Some(full(n)))),
        Call::Deliver(a, b) => match wire.deliver(a, b) {
            Ok(kind) => Answer::Took(kind),
            Err(end) => refused(end),
        },
        Call::Serve(r) if r < 21 => match wire.serve(r) {
            Ok(g) => Answer::Granted(g.node, g.mode, g.valid),
            Err(end) => refused(end),
        },
        Call::Die(n) => done(wire.die(n)),
        Call::Holds(n, r) if r < 21 => Answer::Holds(wire.holds(n, r)),
        _ => Answer::Other,
    }
}

// A holder is called by the master, releases, and the asker is served.
const CALLED: [(Call, Answer); 14] = [
    (Call::Ask(1, ACK, Mode::CR), Answer::Done),
    (Call::Deliver(1, 0), Answer::Took(Taken::Ask)),
    (Call::Serve(ACK), Answer::Granted(1, Mode::CR, true)),
    (Call::Deliver(0, 1), Answer::Took(Taken::Granted)),
    (Call::Holds(1, ACK), Answer::Holds(Some(Mode::CR))),
    (Call::Ask(2, ACK, Mode::EX), Answer::Done),
    (Call::Deliver(2, 0), Answer::Took(Taken::Ask)),
    (
        Call::Serve(ACK),
        Answer::Lock(LockError::NotGrantable {
            holder: 1,
            mode: Mode::CR,
        }),
    ),
    (Call::Deliver(0, 1), Answer::Took(Taken::Called)),
    (Call::Release(1, ACK), Answer::Done),
    (Call::Deliver(1, 0), Answer::Took(Taken::Release)),
    (Call::Serve(ACK), Answer::Granted(2, Mode::EX, true)),
    (Call::Deliver(0, 2), Answer::Took(Taken::Granted)),
    (Call::Holds(2, ACK), Answer::Holds(Some(Mode::EX))),
];

// The master dies with an ask on its way, and the next one is told by reports.
const TAKEN_OVER: [(Call, Answer); 19] = [
    (Call::Ask(1, ACK, Mode::CR), Answer::Done),
    (Call::Deliver(1, 0), Answer::Took(Taken::Ask)),
    (Call::Serve(ACK), Answer::Granted(1, Mode::CR, true)),
    (Call::Deliver(0, 1), Answer::Took(Taken::Granted)),
    (Call::Ask(2, ACK, Mode::EX), Answer::Done),
    (Call::Die(0), Answer::Done),
    (Call::Serve(ACK), Answer::Rebuilding(1)),
    (Call::Deliver(1, 1), Answer::Took(Taken::Report)),
    (Call::Serve(ACK), Answer::Rebuilding(2)),
    (Call::Deliver(2, 1), Answer::Took(Taken::Report)),
    (
        Call::Serve(ACK),
        Answer::Lock(LockError::NotGrantable {
            holder: 1,
            mode: Mode::CR,
        }),
    ),
    (Call::Release(1, ACK), Answer::Done),
    (Call::Deliver(1, 1), Answer::Took(Taken::Called)),
    (Call::Deliver(1, 1), Answer::Took(Taken::Release)),
    (Call::Serve(ACK), Answer::Granted(2, Mode::EX, false)),
    (Call::Deliver(1, 2), Answer::Took(Taken::Granted)),
    (Call::Holds(2, ACK), Answer::Holds(Some(Mode::EX))),
    (Call::Deliver(2, 1), Answer::LinkEmpty(2, 1)),
    (Call::Holds(0, ACK), Answer::Holds(None)),
];

// A conversion is held once its Granted is taken.
const CONVERTED: [(Call, Answer); 11] = [
    (Call::Ask(0, TOKEN, Mode::CR), Answer::Done),
    (Call::Deliver(0, 0), Answer::Took(Taken::Ask)),
    (Call::Serve(TOKEN), Answer::Granted(0, Mode::CR, true)),
    (Call::Deliver(0, 0), Answer::Took(Taken::Granted)),
    (
        Call::Convert(0, TOKEN, Mode::EX),
        Answer::Converted(Converted::Queued),
    ),
    (Call::Deliver(0, 0), Answer::Took(Taken::Convert)),
    (Call::Serve(TOKEN), Answer::Granted(0, Mode::EX, true)),
    (Call::Holds(0, TOKEN), Answer::Holds(Some(Mode::CR))),
    (Call::Deliver(0, 0), Answer::Took(Taken::Granted)),
    (Call::Holds(0, TOKEN), Answer::Holds(Some(Mode::EX))),
    (
        Call::Convert(0, TOKEN, Mode::PW),
        Answer::Converted(Converted::Now),
    ),
];

// Each refusal, with what makes it.
const REFUSED: [(Call, Answer); 27] = [
    (Call::Ask(3, ACK, Mode::CR), Answer::NoNode(3)),
    (Call::Deliver(7, 9), Answer::NoNode(7)),
    (Call::Deliver(0, 9), Answer::NoNode(9)),
    (Call::Deliver(0, 1), Answer::LinkEmpty(0, 1)),
    (Call::Serve(ACK), Answer::Lock(LockError::NothingAsked)),
    (Call::Release(1, ACK), Answer::Lock(LockError::NotHeld)),
    (
        Call::Convert(1, ACK, Mode::CR),
        Answer::Lock(LockError::NotHeld),
    ),
    (Call::Ask(1, ACK, Mode::CW), Answer::Done),
    (
        Call::Ask(1, ACK, Mode::CW),
        Answer::Lock(LockError::NotFree),
    ),
    (Call::Release(1, ACK), Answer::Waiting),
    (
        Call::Convert(1, ACK, Mode::CR),
        Answer::Lock(LockError::NotHeld),
    ),
    (Call::Deliver(1, 0), Answer::Took(Taken::Ask)),
    (Call::Serve(ACK), Answer::Granted(1, Mode::CW, true)),
    (Call::Deliver(0, 1), Answer::Took(Taken::Granted)),
    (
        Call::Convert(1, ACK, Mode::PR),
        Answer::Converted(Converted::Queued),
    ),
    (Call::Holds(1, ACK), Answer::Holds(Some(Mode::CR))),
    (
        Call::Convert(1, ACK, Mode::NL),
        Answer::Lock(LockError::AlreadyAsked),
    ),
    (Call::Release(1, ACK), Answer::Waiting),
    (Call::Die(0), Answer::Done),
    (Call::Die(0), Answer::Fenced(0)),
    (Call::Deliver(0, 9), Answer::Fenced(0)),
    (Call::Deliver(1, 0), Answer::Fenced(0)),
    (Call::Serve(ACK), Answer::Rebuilding(1)),
    (Call::Die(2), Answer::Done),
    (Call::Die(1), Answer::Done),
    (Call::Serve(ACK), Answer::NotUp(1)),
    (Call::Holds(9, ACK), Answer::Holds(None)),
];

// Masters die one after the other, each with a Granted on its way. The ask is served once more by
// each.
const CHAIN: [(Call, Answer); 27] = [
    (Call::Ask(3, 0, Mode::EX), Answer::Done),
    (Call::Deliver(3, 0), Answer::Took(Taken::Ask)),
    (Call::Serve(0), Answer::Granted(3, Mode::EX, true)),
    (Call::Die(0), Answer::Done),
    (Call::Deliver(1, 1), Answer::Took(Taken::Report)),
    (Call::Deliver(2, 1), Answer::Took(Taken::Report)),
    (Call::Serve(0), Answer::Rebuilding(3)),
    (Call::Deliver(3, 1), Answer::Took(Taken::Report)),
    (Call::Serve(0), Answer::Granted(3, Mode::EX, false)),
    (Call::Holds(3, 0), Answer::Holds(None)),
    (Call::Die(1), Answer::Done),
    (Call::Deliver(3, 2), Answer::Took(Taken::Report)),
    (Call::Serve(0), Answer::Rebuilding(2)),
    (Call::Deliver(2, 2), Answer::Took(Taken::Report)),
    (Call::Serve(0), Answer::Granted(3, Mode::EX, false)),
    (Call::Die(2), Answer::Done),
    (Call::Deliver(2, 3), Answer::Fenced(2)),
    (Call::Deliver(3, 3), Answer::Took(Taken::Report)),
    (Call::Serve(0), Answer::Granted(3, Mode::EX, false)),
    (Call::Deliver(3, 3), Answer::Took(Taken::Granted)),
    (Call::Holds(3, 0), Answer::Holds(Some(Mode::EX))),
    (Call::Release(3, 0), Answer::Done),
    (Call::Deliver(3, 3), Answer::Took(Taken::Release)),
    (Call::Ask(3, 0, Mode::CR), Answer::Done),
    (Call::Deliver(3, 3), Answer::Took(Taken::Ask)),
    // The release wrote the block.
    (Call::Serve(0), Answer::Granted(3, Mode::CR, true)),
    (Call::Deliver(3, 3), Answer::Took(Taken::Granted)),
];

#[test]
fn scripts(rt: HostRuntime) -> Result<(), AllocError> {
    let scripts: [(u8, &[(Call, Answer)]); 5] = [
        (3, &CALLED),
        (3, &TAKEN_OVER),
        (2, &CONVERTED),
        (3, &REFUSED),
        (4, &CHAIN),
    ];
    for (i, (nodes, script)) in scripts.iter().enumerate() {
        let mut wire = Wire::open(rt.alloc(), *nodes)?;
        for (j, (call, want)) in script.iter().enumerate() {
            assert_eq!(rt; apply(&mut wire, *call), *want, "script {i}, call {j}");
        }
    }
    Ok(())
}

// Sixteen nodes hold each of the resources. They die in turn, and what the others hold goes with
// the reports from master to master. The last one converts all.
#[test]
fn all_nodes_and_resources(rt: HostRuntime) -> Result<(), AllocError> {
    let mut wire = Wire::open(rt.alloc(), 16)?;
    for r in 0..21usize {
        let m = (r % 16) as NodeId;
        for n in 0..16 {
            assert_eq!(rt; apply(&mut wire, Call::Ask(n, r, Mode::CR)), Answer::Done);
            assert_eq!(rt;
                apply(&mut wire, Call::Deliver(n, m)),
                Answer::Took(Taken::Ask)
            );
            assert_eq!(rt;
                apply(&mut wire, Call::Serve(r)),
                Answer::Granted(n, Mode::CR, true)
            );
            assert_eq!(rt;
                apply(&mut wire, Call::Deliver(m, n)),
                Answer::Took(Taken::Granted)
            );
        }
    }
    for d in 0..15u8 {
        let next = d + 1;
        assert_eq!(rt; apply(&mut wire, Call::Die(d)), Answer::Done);
        for n in next..16 {
            assert_eq!(rt;
                apply(&mut wire, Call::Deliver(n, next)),
                Answer::Took(Taken::Report)
            );
        }
        for r in 0..21 {
            assert_eq!(rt;
                apply(&mut wire, Call::Holds(15, r)),
                Answer::Holds(Some(Mode::CR))
            );
            assert_eq!(rt; apply(&mut wire, Call::Holds(d, r)), Answer::Holds(None));
            let none = Answer::Lock(LockError::NothingAsked);
            assert_eq!(rt; apply(&mut wire, Call::Serve(r)), none);
        }
    }
    for r in 0..21 {
        let queued = Answer::Converted(Converted::Queued);
        assert_eq!(rt; apply(&mut wire, Call::Convert(15, r, Mode::EX)), queued);
        assert_eq!(rt;
            apply(&mut wire, Call::Deliver(15, 15)),
            Answer::Took(Taken::Convert)
        );
        // No master saw these blocks written since it took over, but for those that were its own
        // from the start.
        assert_eq!(rt;
            apply(&mut wire, Call::Serve(r)),
            Answer::Granted(15, Mode::EX, r == 15)
        );
        assert_eq!(rt;
            apply(&mut wire, Call::Deliver(15, 15)),
            Answer::Took(Taken::Granted)
        );
        assert_eq!(rt;
            apply(&mut wire, Call::Holds(15, r)),
            Answer::Holds(Some(Mode::EX))
        );
    }
    Ok(())
}
