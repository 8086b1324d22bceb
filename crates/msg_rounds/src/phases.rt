/// Where a node stands as the sender of a message.
#[derive(Clone, Copy, PartialEq, Eq, Debug)]
pub enum SenderPhase {
    Idle,
    /// EX on `token` is asked.
    TokenAsked,
    TokenHeld,
    /// EX on `message` is asked.
    MessageAsked,
    MessageHeld,
    /// What the message is to say is settled.
    Offered,
    /// The message is in the value block, and EX on `ack` is asked.
    Published,
    /// EX on `ack` is granted: all receivers have processed the message.
    Granted,
}

/// Where a node stands as the receiver of a message.
#[derive(Clone, Copy, PartialEq, Eq, Debug)]
pub enum ReceiverPhase {
    Idle,
    /// The message is read.
    Taken,
    /// The message is processed, and PR on `message` is asked.
    Waiting,
    /// PR on `message` is granted: the sender has let go of it.
    Ready,
}

/// How a receiver's round ended.
#[derive(Clone, Copy, PartialEq, Eq, Debug)]
pub enum Verdict {
    /// The sender finished its round: all have processed the message.
    Whole,
    /// The sender died after its publish and before its finish.
    Broken,
}
