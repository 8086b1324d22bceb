use mdc_types::{NodeId, Res, Word};

/// Why a call of a round was refused. A refused call changes nothing.
#[derive(Clone, Copy)]
pub enum RoundError {
    /// The sender, or the receiver, has that phase, and the call asks another.
    NotPhase(Word),
    /// The node's receiver has that phase, which isn't idle.
    ReceiverBusy(Word),
    /// The head of the queue on `ack` doesn't disagree with what this node holds there.
    NotCalled,
    /// The message's sender has died.
    SenderGone(NodeId),
    /// The message's sender hasn't died.
    SenderLive(NodeId),
    /// The lock that was asked isn't granted yet.
    NotGranted(Res),
}
