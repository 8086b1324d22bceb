ghost use Rattle.std.specs.Prelude.{◌≡◌, ◌++◌, [], ◌<◌, true, IfOk, OnOk, OnErr};
ghost use Rattle.mdc_types.specs.Faults.{HasCause};
ghost use Rattle.script_text.specs.Outside.{with_back, WroteFront, IsDue};

use crate::{Sink, write_all};
use mdc_types::Failed;
use std::alloc::{AllocError, Global};
use std::marker::Model;

// In bytes.
const ROOM: usize = 32_768;

/// Text on its way to a sink: it waits until there are some 32 KiB of it, so that a sink gets few large
/// pieces. All memory is taken by `new`.
///
/// Contracts see the bytes that wait.
#[derive(Drop)]
pub struct TextOut {
    waiting: Vec<u8>,
}

impl Model for TextOut {
    ghost use Rattle.std.specs.Prelude.{ℕ, List, ◌≤◌, vec_capacity};

    ghost Value = { List ℕ };

    ghost view = { λ t. t.waiting.items };

    ghost invariant = { λ t. 32768 ≤ vec_capacity t.waiting };
}

impl TextOut {
    /// No bytes wait.
    pub fn new(alloc: Global) -> Result<TextOut, AllocError>
        ensures { IfOk result (λ t. t ≡ []) }
    {
        Ok(TextOut {
            waiting: Vec::with_capacity(alloc, ROOM)?,
        })
    }

    /// Writes what waits. Nothing waits then, also where a call fails.
    pub fn flush<K: Sink>(&mut self, sink: &mut K) -> Result<(), Failed>
        ensures ok { OnOk result (K.written sink.new ≡ with_back (K.written sink.old) self.old) }
        ensures err { OnErr result (WroteFront (K.written sink.old) self.old (K.written sink.new)) }
        ensures gone { self.new ≡ [] }
        ensures cause { HasCause (λ e. true) (K.faults sink.old) (K.faults sink.new) result }
    {
        let written = write_all(sink, &self.waiting);
        self.waiting.clear();
        written
    }

    /// Puts the text behind what waits, and writes a front of it all where there is no room. Where a
    /// call fails, a front is written, and not all, and nothing waits then.
    pub fn put<K: Sink>(&mut self, sink: &mut K, text: &[u8]) -> Result<(), Failed>
        ensures ok { OnOk result (IsDue (K.written sink.old) (self.old ++ text.now) self.new (K.written sink.new)) }
        ensures err { OnErr result (WroteFront (K.written sink.old) (self.old ++ text.now) (K.written sink.new)) }
        ensures gone { OnErr result (self.new ≡ []) }
        ensures cause { HasCause (λ e. true) (K.faults sink.old) (K.faults sink.new) result }
    {
        if self.waiting.len() + text.len() > ROOM {
            self.flush(sink)?;
            if text.len() > ROOM {
                return write_all(sink, text);
            }
        }
        self.waiting.extend_from_slice(text).unwrap();
        Ok(())
    }
}
