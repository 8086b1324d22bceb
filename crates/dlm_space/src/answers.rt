use dlm_modes::{Block, Mode};
use thiserror::Error;

/// Why a call was refused. A refused call changes nothing.
#[derive(Clone, Copy, PartialEq, Eq, Debug, Error)]
pub enum LockError {
    /// The node holds or asks the resource.
    #[error("the node holds or asks the resource")]
    NotFree,
    /// The node doesn't hold the resource.
    #[error("the node does not hold the resource")]
    NotHeld,
    /// A conversion of the node waits on the resource.
    #[error("a conversion of the node waits already")]
    AlreadyAsked,
    /// The least other holder that disagrees with the mode that is wanted at once, and what it holds.
    #[error("node {holder} holds {mode:?}, which disagrees")]
    Blocked { holder: u8, mode: Mode },
    /// Nobody waits for the resource.
    #[error("nobody waits for the resource")]
    NothingAsked,
    /// The least other holder that disagrees with the mode at the head, and what it holds.
    #[error("node {holder} holds {mode:?}, which disagrees with the head")]
    NotGrantable { holder: u8, mode: Mode },
}

/// What became of a conversion.
#[derive(Clone, Copy, PartialEq, Eq, Debug)]
pub enum Converted {
    /// The node holds the new mode.
    Now,
    /// The conversion waits.
    Queued,
}

/// What a grant from a queue gave.
#[derive(Clone, Copy, PartialEq, Eq, Debug)]
pub struct Granted {
    pub node: u8,
    pub mode: Mode,
    /// The value block, where the grant hands it out.
    pub value: Option<Block>,
    /// Whether the block is marked valid, handed out or not.
    pub valid: bool,
}
