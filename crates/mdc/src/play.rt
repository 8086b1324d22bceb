ghost use Rattle.std.specs.Prelude.{◌≡◌, ◌≤◌, ◌≢◌, map, string_bytes, length, true, Ok};
ghost use Rattle.script_text.specs.Outside.{TookOfPart};
ghost use Rattle.command_words.specs.Commands.{command_of, value_of, HasNames};
ghost use Rattle.mdc.specs.Answers.{Answers, CommandAnswers};

use crate::endings::tell_line;
use crate::inputs::{images_input, locks_input, play_input, wire_input};
use crate::status::{Status, command_status};
use command_words::{Command, WordsEnd, read_words};
use image_commands::create_images;
use image_show::show_images;
use image_upgrade::upgrade_images;
use leg_shelf::Shelf;
use script_text::{Sink, Source};
use std::alloc::Global;
use std::thread::Threads;

// Does what the command says.
fn run_command<R: Threads + Sync, H: Shelf, S: Source, K: Sink>(
    rt: &R,
    alloc: Global,
    command: Command<'_>,
    shelf: &mut H,
    source: &mut S,
    sink: &mut K,
) -> Status
    requires names { HasNames command }
    ensures answers { CommandAnswers (Ok (value_of command.entry)) (record {
      files = H.contents shelf.old;
      files_after = H.contents shelf.new;
      faults = H.faults shelf.old;
      faults_after = H.faults shelf.new;
      leg_faults = H.leg_faults shelf.old;
      leg_faults_after = H.leg_faults shelf.new;
    }) (record {
      left = S.left source.old;
      left_after = S.left source.new;
      written = K.written sink.old;
      written_after = K.written sink.new;
      source_faults = S.faults source.old;
      source_faults_after = S.faults source.new;
      sink_faults = K.faults sink.old;
      sink_faults_after = K.faults sink.new;
    }) result }
    ensures taken { TookOfPart (S.left source.old) (S.left source.new) }
{
    match command {
        Command::Create {
            name,
            geometry,
            uuid,
        } => command_status(create_images(alloc, shelf, sink, geometry, name, uuid)),
        Command::Show { name } => command_status(show_images(rt, alloc, shelf, sink, name)),
        Command::Play => play_input(rt, alloc, source, sink),
        Command::PlayImages { name } => images_input(rt, alloc, name, shelf, source, sink),
        Command::Upgrade { name, to } => {
            command_status(upgrade_images(rt, alloc, shelf, sink, name, to))
        }
        Command::Locks => locks_input(alloc, source, sink),
        Command::Wire => wire_input(alloc, source, sink),
    }
}

/// What `mdc` does. With `play` it plays the script of the source over legs in memory, with `play NAME`
/// over the images of that array, with `locks` it runs it in a lock space, with `wire` in one that is
/// spread over nodes, and it writes one line of text for each line of the script. With `create` and
/// `create2` it makes the images of an array, with `show` it tells what they hold, and with `upgrade` it
/// makes images of version 2 of them.
///
/// It waits for nobody and returns, whatever the bytes are. `Answers` says for each status when it
/// comes, what was written and what was done on the shelf. Whatever the status, nothing was taken from
/// the source that stands after the script.
pub fn play<R: Threads + Sync, H: Shelf, S: Source, K: Sink>(
    rt: &R,
    alloc: Global,
    words: &[String],
    shelf: &mut H,
    source: &mut S,
    sink: &mut K,
) -> Status
    ensures answers { Answers (command_of (map string_bytes words.now)) (record {
      files = H.contents shelf.old;
      files_after = H.contents shelf.new;
      faults = H.faults shelf.old;
      faults_after = H.faults shelf.new;
      leg_faults = H.leg_faults shelf.old;
      leg_faults_after = H.leg_faults shelf.new;
    }) (record {
      left = S.left source.old;
      left_after = S.left source.new;
      written = K.written sink.old;
      written_after = K.written sink.new;
      source_faults = S.faults source.old;
      source_faults_after = S.faults source.new;
      sink_faults = K.faults sink.old;
      sink_faults_after = K.faults sink.new;
    }) result }
    ensures taken { TookOfPart (S.left source.old) (S.left source.new) }
{
    match read_words(alloc, words) {
        Ok(command) => run_command(rt, alloc, command, shelf, source, sink),
        Err(WordsEnd::Usage) => tell_line(b"usage\n", Status::Usage, sink),
        Err(WordsEnd::Memory) => Status::Memory,
    }
}
