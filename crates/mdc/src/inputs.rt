ghost use Rattle.std.specs.Prelude.{◌≡◌, ◌≤◌, true, length};
ghost use Rattle.script_text.specs.Outside.{TookOfPart};
ghost use Rattle.mdc.specs.Answers.{PlayAnswers};
ghost use Rattle.mdc.specs.ImageAnswers.{PlayImagesAnswers};
ghost use Rattle.mdc.specs.LockAnswers.{LockAnswers};
ghost use Rattle.mdc.specs.WireAnswers.{WireAnswers};

use crate::endings::tell_line;
use crate::images::image_bytes;
use crate::locks::lock_bytes;
use crate::scripts::play_bytes;
use crate::status::Status;
use crate::wire::wire_bytes;
use leg_shelf::Shelf;
use script_text::{InputEnd, Sink, Source, read_input};
use std::alloc::Global;
use std::thread::Threads;

/// The word `play` alone.
pub fn play_input<R: Threads + Sync, S: Source, K: Sink>(
    rt: &R,
    alloc: Global,
    source: &mut S,
    sink: &mut K,
) -> Status
    ensures answers { PlayAnswers (record {
      left = S.left source.old;
      left_after = S.left source.new;
      written = K.written sink.old;
      written_after = K.written sink.new;
      source_faults = S.faults source.old;
      source_faults_after = S.faults source.new;
      sink_faults = K.faults sink.old;
      sink_faults_after = K.faults sink.new;
    }) result }
    ensures taken { TookOfPart (S.left source.old) (S.left source.new) }
{
    match read_input(alloc, source) {
        Ok(bytes) => play_bytes(rt, alloc, bytes.as_slice(), sink),
        Err(InputEnd::Failed) => tell_line(b"read-fault\n", Status::ReadFault, sink),
        Err(InputEnd::Memory) => Status::Memory,
    }
}

/// The word `locks`.
pub fn locks_input<S: Source, K: Sink>(alloc: Global, source: &mut S, sink: &mut K) -> Status
    ensures answers { LockAnswers (record {
      left = S.left source.old;
      left_after = S.left source.new;
      written = K.written sink.old;
      written_after = K.written sink.new;
      source_faults = S.faults source.old;
      source_faults_after = S.faults source.new;
      sink_faults = K.faults sink.old;
      sink_faults_after = K.faults sink.new;
    }) result }
    ensures taken { TookOfPart (S.left source.old) (S.left source.new) }
{
    match read_input(alloc, source) {
        Ok(bytes) => lock_bytes(alloc, bytes.as_slice(), sink),
        Err(InputEnd::Failed) => tell_line(b"read-fault\n", Status::ReadFault, sink),
        Err(InputEnd::Memory) => Status::Memory,
    }
}

/// The word `wire`.
pub fn wire_input<S: Source, K: Sink>(alloc: Global, source: &mut S, sink: &mut K) -> Status
    ensures answers { WireAnswers (record {
      left = S.left source.old;
      left_after = S.left source.new;
      written = K.written sink.old;
      written_after = K.written sink.new;
      source_faults = S.faults source.old;
      source_faults_after = S.faults source.new;
      sink_faults = K.faults sink.old;
      sink_faults_after = K.faults sink.new;
    }) result }
    ensures taken { TookOfPart (S.left source.old) (S.left source.new) }
{
    match read_input(alloc, source) {
        Ok(bytes) => wire_bytes(alloc, bytes.as_slice(), sink),
        Err(InputEnd::Failed) => tell_line(b"read-fault\n", Status::ReadFault, sink),
        Err(InputEnd::Memory) => Status::Memory,
    }
}

/// The words `play NAME`.
pub fn images_input<R: Threads + Sync, H: Shelf, S: Source, K: Sink>(
    rt: &R,
    alloc: Global,
    name: &str,
    shelf: &mut H,
    source: &mut S,
    sink: &mut K,
) -> Status
    ensures answers { PlayImagesAnswers name.now (record {
      files = H.contents shelf.old;
      files_after = H.contents shelf.new;
      faults = H.faults shelf.old;
      faults_after = H.faults shelf.new;
      leg_faults = H.leg_faults shelf.old;
      leg_faults_after = H.leg_faults shelf.new;
    }) (record {
      left = S.left source.old;
      left_after = S.left source.new;
      written = K.written sink.old;
      written_after = K.written sink.new;
      source_faults = S.faults source.old;
      source_faults_after = S.faults source.new;
      sink_faults = K.faults sink.old;
      sink_faults_after = K.faults sink.new;
    }) result }
    ensures taken { TookOfPart (S.left source.old) (S.left source.new) }
{
    match read_input(alloc, source) {
        Ok(bytes) => image_bytes(rt, alloc, bytes.as_slice(), name, shelf, sink),
        Err(InputEnd::Failed) => tell_line(b"read-fault\n", Status::ReadFault, sink),
        Err(InputEnd::Memory) => Status::Memory,
    }
}
