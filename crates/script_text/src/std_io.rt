ghost use Rattle.std.specs.Prelude.{◌≡◌, IfOk};

use crate::{Sink, Source};
use mdc_types::Failed;
use std::alloc::{AllocError, Global};
use std::io::{BufReader, Read, Write};

/// A source over a reader of the system, as standard input, with a buffer. It doesn't tell what is
/// left.
#[derive(Drop)]
pub struct StdSource<R: Read> {
    reader: BufReader<R>,
    faults: u64,
}

impl<R: Read + Drop> StdSource<R> {
    /// Takes the memory for its buffer. Reads nothing yet.
    pub fn new(alloc: Global, reader: R) -> Result<StdSource<R>, AllocError>
        ensures { IfOk result (λ s. ⟦<StdSource<R> as Source>⟧.faults s ≡ 0) }
    {
        match BufReader::new(alloc, reader) {
            Ok(reader) => Ok(StdSource { reader, faults: 0 }),
            Err(_) => Err(AllocError),
        }
    }
}

impl<R: Read> Source for StdSource<R> {
    ghost use Rattle.std.specs.Prelude.{None};

    ghost left = { λ _. None };

    ghost faults = { λ s. s.faults };

    fn read(&mut self, buf: &mut [u8]) -> Result<usize, Failed> {
        match self.reader.read(buf) {
            Ok(n) => Ok(n),
            Err(_) => {
                self.faults = self.faults.saturating_add(1);
                Err(Failed)
            }
        }
    }
}

/// A sink over a writer of the system, as standard output. Each piece is handed on at once. It doesn't
/// tell what was written.
#[derive(Drop)]
pub struct StdSink<W: Write> {
    writer: W,
    faults: u64,
}

impl<W: Write> StdSink<W> {
    /// A sink over this writer.
    pub fn new(writer: W) -> StdSink<W>
        ensures { ⟦<StdSink<W> as Sink>⟧.faults result ≡ 0 }
    {
        StdSink { writer, faults: 0 }
    }
}

impl<W: Write> Sink for StdSink<W> {
    ghost use Rattle.std.specs.Prelude.{None};

    ghost written = { λ _. None };

    ghost faults = { λ k. k.faults };

    fn write(&mut self, bytes: &[u8]) -> Result<usize, Failed> {
        match self.writer.write(bytes) {
            Ok(n) if 0 < n || bytes.is_empty() => Ok(n),
            _ => {
                self.faults = self.faults.saturating_add(1);
                Err(Failed)
            }
        }
    }
}
