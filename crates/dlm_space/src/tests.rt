use crate::{Converted, Granted, LockError, Space};
use dlm_modes::{Block, Mode};

#[derive(Clone, Copy)]
enum Call {
    Ask(u8, usize, Mode),
    AskNow(u8, usize, Mode),
    Convert(u8, usize, Mode, Option<u8>),
    ConvertNow(u8, usize, Mode),
    Grant(usize),
    Release(u8, usize, Option<u8>),
    ReleaseAll(u8),
    Die(u8),
    Calls(u8, usize),
    Holder(u8, usize),
    Head(usize),
    Block(usize),
}

// A block by the byte of which it is full.
#[derive(Clone, Copy, PartialEq, Eq, Debug)]
enum Answer {
    Done,
    Gave(Option<u8>),
    Converted(Converted),
    Granted(u8, Mode, Option<u8>, bool),
    Refused(LockError),
    Calls(Option<u8>),
    Holds(Option<Mode>),
    Heads(Option<(u8, Mode)>),
    Has(u8, bool),
    OutOfRange,
}

fn full(byte: u8) -> Block {
    Block { bytes: [byte; 64] }
}

fn byte(block: Block) -> u8 {
    let first = block.bytes[0];
    if block == full(first) { first } else { 255 }
}

fn done(outcome: Result<(), LockError>) -> Answer {
    match outcome {
        Ok(()) => Answer::Done,
        Err(e) => Answer::Refused(e),
    }
}

fn gave(outcome: Result<Option<Block>, LockError>) -> Answer {
    match outcome {
        Ok(value) => Answer::Gave(value.map(byte)),
        Err(e) => Answer::Refused(e),
    }
}

fn converted(outcome: Result<Converted, LockError>) -> Answer {
    match outcome {
        Ok(c) => Answer::Converted(c),
        Err(e) => Answer::Refused(e),
    }
}

fn granted(outcome: Result<Granted, LockError>) -> Answer {
    match outcome {
        Ok(g) => Answer::Granted(g.node, g.mode, g.value.map(byte), g.valid),
        Err(e) => Answer::Refused(e),
    }
}

fn apply(space: &mut Space, call: Call) -> Answer {
    match call {
        Call::Ask(n, r, mode) if n < 16 && r < 21 => done(space.ask(n, r, mode)),
        Call::AskNow(n, r, mode) if n < 16 && r < 21 => gave(space.ask_now(n, r, mode)),
        Call::Convert(n, r, mode, value) if n < 16 && r < 21 => {
            converted(space.convert(n, r, mode, value.map(full)))
        }
        Call::ConvertNow(n, r, mode) if n < 16 && r < 21 => done(space.convert_now(n, r, mode)),
        Call::Grant(r) if r < 21 => granted(space.grant(r)),
        Call::Release(n, r, value) if n < 16 && r < 21 => {
            done(space.release(n, r, value.map(full)))
        }
        Call::ReleaseAll(n) if n < 16 => {
            space.release_all(n);
            Answer::Done
        }
        Call::Die(n) if n < 16 => {
            space.die(n);
            Answer::Done
        }
        Call::Calls(n, r) if n < 16 && r < 21 => Answer::Calls(space.calls(n, r)),
        Call::Holder(n, r) if n < 16 && r < 21 => Answer::Holds(space.holder(r, n)),
        Call::Head(r) if r < 21 => Answer::Heads(space.head(r)),
        Call::Block(r) if r < 21 => {
            let (block, valid) = space.block(r);
            Answer::Has(byte(block), valid)
        }
        _ => Answer::OutOfRange,
    }
}

const MESSAGE: usize = 17;

const ACK: usize = 18;

// The acknowledgement of a message: two receivers are called, and stand in the way one after the other.
const ROUND: [(Call, Answer); 14] = [
    (Call::Ask(0, ACK, Mode::CR), Answer::Done),
    (
        Call::Grant(ACK),
        Answer::Granted(0, Mode::CR, Some(0), true),
    ),
    (Call::Ask(1, ACK, Mode::CR), Answer::Done),
    (
        Call::Grant(ACK),
        Answer::Granted(1, Mode::CR, Some(0), true),
    ),
    (Call::Ask(2, ACK, Mode::EX), Answer::Done),
    (Call::Head(ACK), Answer::Heads(Some((2, Mode::EX)))),
    (Call::Calls(0, ACK), Answer::Calls(Some(2))),
    (Call::Calls(1, ACK), Answer::Calls(Some(2))),
    (
        Call::Grant(ACK),
        Answer::Refused(LockError::NotGrantable {
            holder: 0,
            mode: Mode::CR,
        }),
    ),
    (Call::Release(0, ACK, None), Answer::Done),
    (
        Call::Grant(ACK),
        Answer::Refused(LockError::NotGrantable {
            holder: 1,
            mode: Mode::CR,
        }),
    ),
    (Call::Release(1, ACK, None), Answer::Done),
    (
        Call::Grant(ACK),
        Answer::Granted(2, Mode::EX, Some(0), true),
    ),
    (Call::Grant(ACK), Answer::Refused(LockError::NothingAsked)),
];

const SENDER: [(Call, Answer); 8] = [
    (Call::Ask(0, MESSAGE, Mode::EX), Answer::Done),
    (
        Call::Grant(MESSAGE),
        Answer::Granted(0, Mode::EX, Some(0), true),
    ),
    (
        Call::Convert(0, MESSAGE, Mode::CW, None),
        Answer::Converted(Converted::Now),
    ),
    (Call::Ask(1, MESSAGE, Mode::CR), Answer::Done),
    (
        Call::Grant(MESSAGE),
        Answer::Granted(1, Mode::CR, Some(0), true),
    ),
    (
        Call::ConvertNow(1, MESSAGE, Mode::PR),
        Answer::Refused(LockError::Blocked {
            holder: 0,
            mode: Mode::CW,
        }),
    ),
    (Call::Release(1, MESSAGE, None), Answer::Done),
    (
        Call::Release(1, MESSAGE, None),
        Answer::Refused(LockError::NotHeld),
    ),
];

// The value block: written, read, invalid after a death, and valid again.
const BLOCKS: [(Call, Answer); 17] = [
    (Call::AskNow(3, MESSAGE, Mode::EX), Answer::Gave(Some(0))),
    (
        Call::Convert(3, MESSAGE, Mode::CW, Some(7)),
        Answer::Converted(Converted::Now),
    ),
    (Call::Ask(15, MESSAGE, Mode::CR), Answer::Done),
    (
        Call::Grant(MESSAGE),
        Answer::Granted(15, Mode::CR, Some(7), true),
    ),
    (Call::Release(3, MESSAGE, Some(9)), Answer::Done),
    (Call::AskNow(4, MESSAGE, Mode::PW), Answer::Gave(Some(7))),
    (Call::Die(4), Answer::Done),
    (Call::Holder(4, MESSAGE), Answer::Holds(None)),
    (Call::Block(MESSAGE), Answer::Has(7, false)),
    (Call::AskNow(4, MESSAGE, Mode::PW), Answer::Gave(None)),
    (
        Call::Convert(4, MESSAGE, Mode::EX, Some(8)),
        Answer::Converted(Converted::Queued),
    ),
    (
        Call::Convert(4, MESSAGE, Mode::NL, None),
        Answer::Refused(LockError::AlreadyAsked),
    ),
    (Call::Release(15, MESSAGE, None), Answer::Done),
    (
        Call::Grant(MESSAGE),
        Answer::Granted(4, Mode::EX, Some(7), false),
    ),
    (Call::Release(4, MESSAGE, Some(5)), Answer::Done),
    (Call::Block(MESSAGE), Answer::Has(5, true)),
    (Call::Block(ACK), Answer::Has(0, true)),
];

// A node lets go of all: its conversion is dropped, its request stays, and the block stays valid.
const LETS_GO: [(Call, Answer); 12] = [
    (Call::AskNow(0, MESSAGE, Mode::EX), Answer::Gave(Some(0))),
    (Call::AskNow(0, ACK, Mode::CR), Answer::Gave(Some(0))),
    (Call::AskNow(1, ACK, Mode::CR), Answer::Gave(Some(0))),
    (
        Call::Convert(0, ACK, Mode::EX, None),
        Answer::Converted(Converted::Queued),
    ),
    (Call::Ask(0, 20, Mode::PR), Answer::Done),
    (Call::ReleaseAll(0), Answer::Done),
    (Call::Holder(0, MESSAGE), Answer::Holds(None)),
    (Call::Block(MESSAGE), Answer::Has(0, true)),
    (Call::Head(ACK), Answer::Heads(None)),
    (Call::Holder(1, ACK), Answer::Holds(Some(Mode::CR))),
    (Call::Holder(0, ACK), Answer::Holds(None)),
    (Call::Head(20), Answer::Heads(Some((0, Mode::PR)))),
];

// Conversions go first, and a release drops them; NL is held.
const QUEUES: [(Call, Answer); 16] = [
    (Call::AskNow(0, 0, Mode::NL), Answer::Gave(Some(0))),
    (Call::Holder(0, 0), Answer::Holds(Some(Mode::NL))),
    (Call::AskNow(1, 0, Mode::CR), Answer::Gave(Some(0))),
    (Call::AskNow(2, 0, Mode::CR), Answer::Gave(Some(0))),
    (Call::Ask(3, 0, Mode::NL), Answer::Done),
    (
        Call::Ask(3, 0, Mode::NL),
        Answer::Refused(LockError::NotFree),
    ),
    (
        Call::Release(3, 0, None),
        Answer::Refused(LockError::NotHeld),
    ),
    (
        Call::Convert(2, 0, Mode::PR, None),
        Answer::Converted(Converted::Queued),
    ),
    (
        Call::Convert(1, 0, Mode::EX, None),
        Answer::Converted(Converted::Queued),
    ),
    (Call::Head(0), Answer::Heads(Some((2, Mode::PR)))),
    (Call::Release(2, 0, None), Answer::Done),
    (Call::Head(0), Answer::Heads(Some((1, Mode::EX)))),
    (Call::Grant(0), Answer::Granted(1, Mode::EX, Some(0), true)),
    (Call::Calls(1, 0), Answer::Calls(None)),
    (Call::Grant(0), Answer::Granted(3, Mode::NL, Some(0), true)),
    (Call::Head(0), Answer::Heads(None)),
];

#[test]
fn scripts(rt: HostRuntime) {
    let scripts: [&[(Call, Answer)]; 5] = [&ROUND, &SENDER, &BLOCKS, &LETS_GO, &QUEUES];
    for (i, script) in scripts.iter().enumerate() {
        let mut space = Space::new();
        for (j, (call, want)) in script.iter().enumerate() {
            assert_eq!(rt; apply(&mut space, *call), *want, "script {i}, call {j}");
        }
    }
}
