ghost use Rattle.std.specs.Prelude.{ℕ};

use mdc_types::NodeId;
use std::sync::Wait;

/// What a worker passes before each of its calls. It has no contents, and may wait.
pub trait Gate {
    /// What is known once the node has passed the gate for the call of this number. A worker knows
    /// it of no call before.
    ghost opened: { Self → ℕ → ℕ → Type 0 };

    fn pass<R: Wait>(&self, rt: &R, node: NodeId, call: u32)
        ensures { opened self.now node call };
}

/// A gate that lets everyone through at once.
#[derive(Drop)]
pub struct OpenGate;

impl Gate for OpenGate {
    ghost opened = { λ gate node call. Unit {0} };

    fn pass<R: Wait>(&self, _rt: &R, _node: NodeId, _call: u32) {}
}
