ghost use Rattle.std.specs.Prelude.{◌≤◌, ◌<◌};
ghost use Rattle.image_texts.specs.Lines.{shelf_text};
ghost use Rattle.image_files.specs.Ends.{IsOfLeg};
ghost use Rattle.image_ends.specs.Told.{Told, TellsError, ToldOrNot};

use crate::CommandEnd;
use image_faults::ImageError;
use image_texts::{image_text, shelf_text};
use mdc_types::LegId;
use script_text::{Sink, write_all};
use std::alloc::Global;

/// Prints the text of this end. Where a write fails, the end is `Write`.
pub fn tell<K: Sink>(sink: &mut K, text: &str, end: CommandEnd) -> CommandEnd
    ensures told { Told (record {
      written = K.written sink.old;
      written_after = K.written sink.new;
      faults = K.faults sink.old;
      faults_after = K.faults sink.new;
    }) text.now end result }
    ensures later { K.faults sink.old ≤ K.faults sink.new }
{
    match write_all(sink, text.as_bytes()) {
        Ok(()) => end,
        Err(_) => CommandEnd::Write,
    }
}

// Prints that the shelf failed at leg `l` of the array of this name, with this end.
fn tell_shelf<K: Sink>(
    alloc: Global,
    sink: &mut K,
    name: &str,
    l: LegId,
    end: CommandEnd,
) -> CommandEnd
    requires leg { l < 8 }
    ensures told { ToldOrNot (record {
      written = K.written sink.old;
      written_after = K.written sink.new;
      faults = K.faults sink.old;
      faults_after = K.faults sink.new;
    }) (shelf_text name.now l) end result }
    ensures later { K.faults sink.old ≤ K.faults sink.new }
{
    match shelf_text(alloc, name, l) {
        Ok(text) => tell(sink, text.as_str(), end),
        Err(_) => CommandEnd::Memory,
    }
}

/// Prints why a call on the images of the array of this name wasn't done: `image LEG FAULT`, or
/// `shelf NAME.LEG` where the shelf or a leg of it failed, and nothing for want of memory.
pub fn tell_error<K: Sink>(alloc: Global, sink: &mut K, name: &str, error: ImageError) -> CommandEnd
    requires leg { IsOfLeg error }
    ensures told { TellsError (record {
      written = K.written sink.old;
      written_after = K.written sink.new;
      faults = K.faults sink.old;
      faults_after = K.faults sink.new;
    }) name.now error result }
    ensures later { K.faults sink.old ≤ K.faults sink.new }
{
    match error {
        ImageError::Image(l, fault) => match image_text(alloc, l, &fault) {
            Ok(text) => tell(sink, text.as_str(), CommandEnd::Image(l, fault)),
            Err(_) => CommandEnd::Memory,
        },
        ImageError::Shelf(l) => tell_shelf(alloc, sink, name, l, CommandEnd::Shelf(l)),
        ImageError::Device(l) => tell_shelf(alloc, sink, name, l, CommandEnd::Shelf(l)),
        ImageError::Memory(_) => CommandEnd::Memory,
    }
}

/// Prints that the shelf failed in a call on leg `l`'s file of the new array of this name,
/// `shelf NAME.LEG`.
pub fn tell_new<K: Sink>(alloc: Global, sink: &mut K, name: &str, l: LegId) -> CommandEnd
    requires leg { l < 8 }
    ensures told { ToldOrNot (record {
      written = K.written sink.old;
      written_after = K.written sink.new;
      faults = K.faults sink.old;
      faults_after = K.faults sink.new;
    }) (shelf_text name.now l) (CommandEnd.ShelfTo l) result }
    ensures later { K.faults sink.old ≤ K.faults sink.new }
{
    tell_shelf(alloc, sink, name, l, CommandEnd::ShelfTo(l))
}
