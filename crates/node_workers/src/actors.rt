ghost use Rattle.std.specs.Prelude.{◌≡◌, ℕ, ◌+◌, Bool, true, false};
ghost use Rattle.node_workers.specs.Workers.{Moves};

use std::sync::Wait;

/// What became of a call.
#[derive(Drop, Clone, Copy)]
pub enum Called {
    /// It was made.
    Done,
    /// It could not be made yet.
    Again,
    /// It was not made, and no call will be made any more.
    Ended,
}

/// What a worker drives: a node's calls, numbered from 0.
pub trait Actor {
    /// What it was made with, which never changes.
    type Made;

    ghost made: { Self → Self.Made };

    /// How many of its calls were done.
    ghost done: { Self → ℕ };

    ghost ended: { Self → Bool };

    /// Whether the call of this number may be made, for what the actor was made with.
    ghost may: { Self.Made → ℕ → Type 0 };

    /// Makes the call of number k, the next one.
    fn call<R: Wait>(&mut self, rt: &R, k: u32) -> Called
        requires next { done self.old ≡ k }
        requires goes_on { ended self.old ≡ false }
        requires may { may (made self.old) k }
        ensures made { made self.new ≡ made self.old }
        ensures moves { Moves result (done self.old) (done self.new) (ended self.new) };

    /// Does something else that may be wanting before a call can be made.
    fn help<R: Wait>(&mut self, rt: &R)
        ensures made { made self.new ≡ made self.old }
        ensures same { (done self.new ≡ done self.old) × (ended self.new ≡ ended self.old) };
}
