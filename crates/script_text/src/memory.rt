ghost use Rattle.std.specs.Prelude.{◌≡◌, ℕ, ◌<◌, ◌≤◌, ◌-◌, [], take, length, IfOk, OnErr, Ok, is_ok, is_err, not, vec_len, true};
ghost use Rattle.mdc_types.specs.Faults.{HasCause};
ghost use Rattle.script_text.specs.Outside.{with_front, with_back, IsAtEnd};
ghost use Rattle.script_text.specs.Memory.{MemInput, MemOutput, read_fails, read_len, after_read, write_fails, write_len, after_write};
ghost use Rattle.std.specs.Prelude.{nat_eq};
ghost use Rattle.std.specs.List.{list_any};

use crate::{Sink, Source};
use mdc_types::Failed;
use std::alloc::{AllocError, Global};
use std::marker::Model;

/// A source in memory, with the numbers of its calls that fail. The calls count from 0.
#[derive(Drop)]
pub struct MemSource {
    bytes: Vec<u8>,
    at: usize,
    failing: Vec<u32>,
    calls: u64,
    faults: u64,
}

impl Model for MemSource {
    ghost use Rattle.std.specs.Prelude.{◌≤◌, drop, vec_len};
    ghost use Rattle.script_text.specs.Memory.{MemInput};

    ghost Value = { MemInput };

    ghost view = { λ s. record { left = drop s.at s.bytes.items; failing = s.failing.items; calls = s.calls; faults = s.faults } };

    ghost invariant = { λ s. s.at ≤ vec_len s.bytes };
}

impl MemSource {
    /// A source of these bytes.
    pub fn new(bytes: Vec<u8>, failing: Vec<u32>) -> MemSource
        ensures { result ≡ record { left = bytes.items; failing = failing.items; calls = 0; faults = 0 } }
    {
        MemSource {
            bytes,
            at: 0,
            failing,
            calls: 0,
            faults: 0,
        }
    }
}

impl Source for MemSource {
    ghost use Rattle.std.specs.Prelude.{Some};

    ghost left = { λ s. Some s.left };

    ghost faults = { λ s. s.faults };

    fn read(&mut self, buf: &mut [u8]) -> Result<usize, Failed>
        ensures length { IfOk result (λ n. n ≤ length buf.new) }
        ensures given { IfOk result (λ n. Some self.old.left ≡ with_front (take n buf.new) (Some self.new.left)) }
        ensures end { result ≡ Ok 0 → 0 < length buf.old → IsAtEnd (Some self.old.left) }
        ensures err { OnErr result (Some self.new.left ≡ Some self.old.left) }
        ensures cause { HasCause (λ e. true) self.old.faults self.new.faults result }

        // It fails exactly in the calls that are to fail, and else gives as much as it can.
        ensures fails { is_err result ≡ read_fails self.old }
        ensures gives { IfOk result (λ n. n ≡ read_len self.old (length buf.old)) }
        ensures after { self.new ≡ after_read self.old (length buf.old) }
    {
        let fails = is_among(self.calls, &self.failing);
        self.calls = self.calls.saturating_add(1);
        if fails {
            self.faults = self.faults.saturating_add(1);
            return Err(Failed);
        }
        let n = buf.len().min(self.bytes.len() - self.at);
        let end = self.at + n;
        buf[..n].copy_from_slice(&self.bytes[self.at..end]);
        self.at = end;
        Ok(n)
    }
}

/// A sink in memory, with the room for a number of bytes and the numbers of its calls that fail. The
/// calls count from 0. A call that has a byte and no room for it fails too.
#[derive(Drop)]
pub struct MemSink {
    bytes: Vec<u8>,
    room: usize,
    failing: Vec<u32>,
    calls: u64,
    faults: u64,
}

impl Model for MemSink {
    ghost use Rattle.std.specs.Prelude.{◌+◌, ◌≤◌, vec_len, vec_capacity};
    ghost use Rattle.script_text.specs.Memory.{MemOutput};

    ghost Value = { MemOutput };

    ghost view = { λ k. record { written = k.bytes.items; room = k.room; failing = k.failing.items; calls = k.calls; faults = k.faults } };

    ghost invariant = { λ k. vec_len k.bytes + k.room ≤ vec_capacity k.bytes };
}

impl MemSink {
    /// A sink with room for `size` bytes, whose memory it takes.
    pub fn new(alloc: Global, size: usize, failing: Vec<u32>) -> Result<MemSink, AllocError>
        ensures { IfOk result (λ k. k ≡ record { written = []; room = size; failing = failing.items; calls = 0; faults = 0 }) }
    {
        Ok(MemSink {
            bytes: Vec::with_capacity(alloc, size)?,
            room: size,
            failing,
            calls: 0,
            faults: 0,
        })
    }

    /// What was written.
    pub fn bytes(&self) -> &[u8]
        ensures { result.now ≡ self.now.written }
    {
        self.bytes.as_slice()
    }
}

impl Sink for MemSink {
    ghost use Rattle.std.specs.Prelude.{Some};

    ghost written = { λ k. Some k.written };

    ghost faults = { λ k. k.faults };

    fn write(&mut self, bytes: &[u8]) -> Result<usize, Failed>
        ensures length { IfOk result (λ n. n ≤ length bytes.now) }
        ensures progress { IfOk result (λ n. 0 < length bytes.now → 0 < n) }
        ensures taken { IfOk result (λ n. Some self.new.written ≡ with_back (Some self.old.written) (take n bytes.now)) }
        ensures err { OnErr result (Some self.new.written ≡ Some self.old.written) }
        ensures cause { HasCause (λ e. true) self.old.faults self.new.faults result }

        // It fails exactly in the calls that are to fail and where it is full, and else takes as much
        // as it can.
        ensures fails { is_err result ≡ write_fails self.old bytes.now }
        ensures takes { IfOk result (λ n. n ≡ write_len self.old bytes.now) }
        ensures after { self.new ≡ after_write self.old bytes.now }
    {
        let fails = is_among(self.calls, &self.failing);
        let full = !bytes.is_empty() && self.room == 0;
        self.calls = self.calls.saturating_add(1);
        if fails || full {
            self.faults = self.faults.saturating_add(1);
            return Err(Failed);
        }
        let n = bytes.len().min(self.room);
        self.bytes.extend_from_slice(&bytes[..n]).unwrap();
        self.room -= n;
        Ok(n)
    }
}

fn is_among(call: u64, failing: &[u32]) -> bool
    ensures { result ≡ list_any (nat_eq call) failing.now }
{
    failing.iter().any(|number| call == u64::from(*number))
}
