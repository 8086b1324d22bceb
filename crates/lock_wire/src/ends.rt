use dlm_space::LockError;
use mdc_types::Refusal;

/// Why a call did nothing.
#[derive(Clone, Copy)]
pub enum WireEnd {
    /// A guard of nodes, links and masters refused it.
    Refused(Refusal),
    /// The node's local state, or the master's table, refused it.
    Lock(LockError),
    /// Memory ran out.
    Memory,
}
