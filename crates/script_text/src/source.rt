ghost use Rattle.std.specs.Prelude.{◌≡◌, ◌<◌, ◌≤◌, ℕ, List, Option, take, length, IfOk, OnErr, Ok, true};
ghost use Rattle.mdc_types.specs.Faults.{HasCause};
ghost use Rattle.script_text.specs.Outside.{with_front, IsAtEnd};

use mdc_types::Failed;

/// Where a script comes from.
pub trait Source {
    /// The bytes that are left, where the source tells them.
    ghost left: { Self → Option (List ℕ) };

    /// How often it has failed.
    ghost faults: { Self → ℕ };

    /// Puts the next bytes at the front of the buffer, and says how many. Nothing for a buffer that
    /// isn't empty is the end of the input. A call that fails takes nothing.
    fn read(&mut self, buf: &mut [u8]) -> Result<usize, Failed>
        ensures length { IfOk result (λ n. n ≤ length buf.new) }
        ensures given { IfOk result (λ n. left self.old ≡ with_front (take n buf.new) (left self.new)) }
        ensures end { result ≡ Ok 0 → 0 < length buf.old → IsAtEnd (left self.old) }
        ensures err { OnErr result (left self.new ≡ left self.old) }
        ensures cause { HasCause (λ e. true) (faults self.old) (faults self.new) result };
}
