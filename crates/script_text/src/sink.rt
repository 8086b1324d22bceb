ghost use Rattle.std.specs.Prelude.{◌≡◌, ◌<◌, ◌≤◌, ℕ, List, Option, take, length, IfOk, OnOk, OnErr, true};
ghost use Rattle.mdc_types.specs.Faults.{HasCause};
ghost use Rattle.script_text.specs.Outside.{with_back, WroteFront};

use mdc_types::Failed;

/// Where text goes.
pub trait Sink {
    /// The bytes that were written, where the sink tells them.
    ghost written: { Self → Option (List ℕ) };

    /// How often it has failed.
    ghost faults: { Self → ℕ };

    /// Takes the piece, or a front of it, and says how many bytes: at least one, where there is one.
    /// A call that fails writes nothing.
    fn write(&mut self, bytes: &[u8]) -> Result<usize, Failed>
        ensures length { IfOk result (λ n. n ≤ length bytes.now) }
        ensures progress { IfOk result (λ n. 0 < length bytes.now → 0 < n) }
        ensures taken { IfOk result (λ n. written self.new ≡ with_back (written self.old) (take n bytes.now)) }
        ensures err { OnErr result (written self.new ≡ written self.old) }
        ensures cause { HasCause (λ e. true) (faults self.old) (faults self.new) result };
}

/// Writes all of the piece, in as many calls as it takes. Where a call fails, a front of the piece is
/// written, and not all.
pub fn write_all<K: Sink>(sink: &mut K, bytes: &[u8]) -> Result<(), Failed>
    ensures ok { OnOk result (K.written sink.new ≡ with_back (K.written sink.old) bytes.now) }
    ensures err { OnErr result (WroteFront (K.written sink.old) bytes.now (K.written sink.new)) }
    ensures cause { HasCause (λ e. true) (K.faults sink.old) (K.faults sink.new) result }
{
    let mut rest = bytes;
    while !rest.is_empty() {
        let n = sink.write(rest)?;
        rest = &rest[n..];
    }
    Ok(())
}
