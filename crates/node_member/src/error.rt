use mdc_types::NodeId;
use thiserror::Error;

/// Why a call was refused. A refused call changes nothing.
#[derive(Clone, Copy, PartialEq, Eq, Debug, Error)]
pub enum MemberError {
    /// The node died, and its slot isn't recovered yet.
    #[error("node {0} died, and its slot is not recovered")]
    Fenced(NodeId),
    /// The node isn't live.
    #[error("node {0} is not live")]
    NotUp(NodeId),
    /// The node is live.
    #[error("node {0} is live")]
    SlotLive(NodeId),
    /// The node's slot waits for its recovery.
    #[error("slot {0} waits for its recovery")]
    SlotPending(NodeId),
    /// The slot doesn't wait for a recovery.
    #[error("slot {0} does not wait for a recovery")]
    NotPending(NodeId),
    /// The slot of the node that began the recovery last waits for a recovery itself.
    #[error("slot {0} of the heir waits for its recovery")]
    HeirPending(NodeId),
    /// The events number that was read is below the last completed one.
    #[error("events {read} were read, and {completed} are completed")]
    Stale { read: u64, completed: u64 },
}
