ghost use Rattle.std.specs.Prelude.{◌≡◌};
ghost use Rattle.dlm_space.specs.Parts.{locks_of};
ghost use Rattle.msg_rounds.specs.Example.{three_nodes, first_published};

use crate::{Receiver, RoundError, Sender, SenderPhase, Verdict};
use dlm_modes::{Block, Mode};
use dlm_space::Space;
use mdc_types::{Res, Word};
use std::process::Abort;

const TOKEN: usize = 16;

const MESSAGE: usize = 17;

const ACK: usize = 18;

const SAID: Block = Block { bytes: [7; 64] };

// Nodes 0, 1 and 2 hold CR on `ack`.
fn three_nodes(rt: &impl Abort) -> Space
    ensures { locks_of result ≡ three_nodes }
{
    let mut space = Space::new();
    let Ok(_) = space.ask_now(0, ACK, Mode::CR) else {
        panic!(rt; "node 0")
    };
    let Ok(_) = space.ask_now(1, ACK, Mode::CR) else {
        panic!(rt; "node 1")
    };
    let Ok(_) = space.ask_now(2, ACK, Mode::CR) else {
        panic!(rt; "node 2")
    };
    space
}

// Node 0 publishes the block.
fn published(rt: &impl Abort, block: &Block) -> (Space, Sender)
    ensures locks { locks_of result.0 ≡ first_published block.now }
    ensures phase { result.1 ≡ SenderPhase.Published }
{
    let mut space = three_nodes(rt);
    let mut sender = Sender::new();
    let mut receiver = Receiver::new();

    let Err(RoundError::NotCalled) = receiver.take(&mut space, 0) else {
        panic!(rt; "take with nobody calling")
    };
    let Ok(()) = sender.ask_token(&mut space, 0, &receiver) else {
        panic!(rt; "ask_token")
    };
    let Err(RoundError::NotGranted(Res::Token)) = sender.token_granted(&mut space, 0) else {
        panic!(rt; "token_granted before its grant")
    };
    let Ok(_) = space.grant(TOKEN) else {
        panic!(rt; "token")
    };
    let Ok(()) = sender.token_granted(&mut space, 0) else {
        panic!(rt; "token_granted")
    };
    let Ok(()) = sender.ask_message(&mut space, 0, &receiver) else {
        panic!(rt; "ask_message")
    };
    let Ok(_) = space.grant(MESSAGE) else {
        panic!(rt; "message")
    };
    let Ok(()) = sender.message_granted(&mut space, 0) else {
        panic!(rt; "message_granted")
    };
    let Err(RoundError::NotPhase(Word::MessageHeld)) = sender.void(&mut space, 0) else {
        panic!(rt; "void before its offer")
    };
    let Ok(()) = sender.offer(&mut space, 0) else {
        panic!(rt; "offer")
    };
    let Ok(()) = sender.publish(&mut space, 0, block) else {
        panic!(rt; "publish")
    };
    (space, sender)
}

#[test]
fn finished_round_is_whole(rt: HostRuntime) {
    let (mut space, mut sender) = published(&rt, &SAID);
    let mut first = Receiver::new();
    let mut second = Receiver::new();

    let Ok((block, from)) = first.take(&mut space, 1) else {
        panic!(rt; "take of node 1")
    };
    assert_eq!(rt; block, SAID);
    assert_eq!(rt; from, 0);
    let Ok((block, from)) = second.take(&mut space, 2) else {
        panic!(rt; "take of node 2")
    };
    assert_eq!(rt; block, SAID);
    assert_eq!(rt; from, 0);
    let Err(RoundError::SenderLive(0)) = first.drop_message(&mut space, 1) else {
        panic!(rt; "drop_message of a living sender")
    };
    let Ok(()) = first.processed(&mut space, 1) else {
        panic!(rt; "processed of node 1")
    };
    let Err(RoundError::NotGranted(Res::Ack)) = sender.ack_granted(&mut space, 0) else {
        panic!(rt; "ack_granted before its grant")
    };
    let Ok(()) = second.processed(&mut space, 2) else {
        panic!(rt; "processed of node 2")
    };
    let Ok(_) = space.grant(ACK) else {
        panic!(rt; "ack")
    };
    let Ok(()) = sender.ack_granted(&mut space, 0) else {
        panic!(rt; "ack_granted")
    };
    let Err(RoundError::NotGranted(Res::Message)) = first.pr_granted(&mut space, 1) else {
        panic!(rt; "pr_granted before its grant")
    };
    let Ok(()) = sender.finish(&mut space, 0) else {
        panic!(rt; "finish")
    };
    let Ok(_) = space.grant(MESSAGE) else {
        panic!(rt; "message for node 1")
    };
    let Ok(_) = space.grant(MESSAGE) else {
        panic!(rt; "message for node 2")
    };
    let Ok(()) = first.pr_granted(&mut space, 1) else {
        panic!(rt; "pr_granted")
    };
    let Ok(verdict) = first.resume(&mut space, 1) else {
        panic!(rt; "resume of node 1")
    };
    assert_eq!(rt; verdict, Verdict::Whole);
    // A death after the finish breaks nothing.
    space.die(0);
    let Ok(verdict) = second.resume(&mut space, 2) else {
        panic!(rt; "resume of node 2")
    };
    assert_eq!(rt; verdict, Verdict::Whole);
}

#[test]
fn death_after_publish_breaks(rt: HostRuntime) {
    let (mut space, _) = published(&rt, &SAID);
    let mut first = Receiver::new();
    let mut second = Receiver::new();

    let Ok((block, _)) = first.take(&mut space, 1) else {
        panic!(rt; "take of node 1")
    };
    assert_eq!(rt; block, SAID);
    let Ok((block, _)) = second.take(&mut space, 2) else {
        panic!(rt; "take of node 2")
    };
    assert_eq!(rt; block, SAID);
    let mut busy = Sender::new();
    let Err(RoundError::ReceiverBusy(Word::Taken)) = busy.ask_token(&mut space, 1, &first) else {
        panic!(rt; "ask_token of a receiver")
    };
    let Ok(()) = first.processed(&mut space, 1) else {
        panic!(rt; "processed of node 1")
    };
    space.die(0);
    first.sender_died(&mut space, 0);
    second.sender_died(&mut space, 0);
    assert_eq!(rt; first.gone(), Some(0));
    let Err(RoundError::SenderGone(0)) = second.processed(&mut space, 2) else {
        panic!(rt; "processed of a dead sender")
    };
    let Ok(()) = second.drop_message(&mut space, 2) else {
        panic!(rt; "drop_message")
    };
    let Ok(_) = space.grant(MESSAGE) else {
        panic!(rt; "message for node 1")
    };
    let Ok(verdict) = first.resume(&mut space, 1) else {
        panic!(rt; "resume of node 1")
    };
    assert_eq!(rt; verdict, Verdict::Broken);
}
