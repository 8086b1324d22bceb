ghost use Rattle.std.specs.Prelude.{◌≡◌, ◌≤◌, [], true, length, map, IfErr};
ghost use Rattle.cluster_core.specs.Stands.{stand};
ghost use Rattle.image_files.specs.Ends.{IsOfLeg};
ghost use Rattle.image_files.specs.Names.{leg_names};
ghost use Rattle.image_play.specs.Ends.{Ends, Finishes};
ghost use Rattle.image_play.specs.Starts.{AreImages, Starts};

use crate::ImagesEnd;
use crate::ends::images_end;
use cluster_core::{NoWorld, World};
use image_ends::tell_error;
use image_faults::ImageError;
use image_files::{FileNames, close_after, close_all};
use image_opening::{Opened, Versions, open_array};
use leg_shelf::Shelf;
use leg_store::LegDev;
use script_play::{RunEnd, run_lines};
use script_text::{ScriptLines, Sink, TextOut};
use std::alloc::{AllocError, Global};
use std::thread::Threads;
use world_openings::Opening;

// The end of a script whose lines ended so, and whose legs were given back so. Where they were all
// played, it is told which leg wasn't taken.
fn finish<K: Sink>(
    alloc: Global,
    sink: &mut K,
    name: &str,
    end: RunEnd,
    closed: Result<(), ImageError>,
) -> ImagesEnd
    requires leg { IfErr closed IsOfLeg }
    ensures told { Finishes (record {
      written = K.written sink.old;
      written_after = K.written sink.new;
      faults = K.faults sink.old;
      faults_after = K.faults sink.new;
    }) name.now end closed result }
    ensures later { K.faults sink.old ≤ K.faults sink.new }
{
    match end {
        RunEnd::Done => match closed {
            Ok(()) => ImagesEnd::Done,
            Err(error) => images_end(tell_error(alloc, sink, name, error)),
        },
        RunEnd::Write => ImagesEnd::Write,
        RunEnd::Memory => ImagesEnd::Memory,
        RunEnd::TraceFull => ImagesEnd::TraceFull,
    }
}

// Plays the lines in the world, and gives its legs back.
fn run_world<R: Threads + Sync, H: Shelf, K: Sink>(
    rt: &R,
    alloc: Global,
    shelf: &mut H,
    sink: &mut K,
    names: &FileNames,
    name: &str,
    lines: &ScriptLines,
    out: &mut TextOut,
    mut world: World<H::Leg>,
) -> ImagesEnd
    requires starts { Starts (H.contents shelf.old) name.now world.origin (stand world) }
    requires base { length world.origin.base ≡ world.origin.sizes.room }
    requires names { names.now ≡ leg_names name.now }
    requires empty { out.old ≡ [] }
    ensures { Ends (record {
      files = H.contents shelf.old;
      files_after = H.contents shelf.new;
      faults = H.faults shelf.old;
      faults_after = H.faults shelf.new;
      leg_faults = H.leg_faults shelf.old;
      leg_faults_after = H.leg_faults shelf.new;
    }) name.now lines.now (record {
      written = K.written sink.old;
      written_after = K.written sink.new;
      faults = K.faults sink.old;
      faults_after = K.faults sink.new;
    }) result }
{
    let end = run_lines(rt, alloc, &mut world, lines, out, sink);
    world.history();
    let legs = world.into_legs();
    let closed = close_all(shelf, names, legs);
    finish(alloc, sink, name, end, closed)
}

// Plays the lines over the legs that were opened, and gives them back.
fn run_legs<R: Threads + Sync, H: Shelf, K: Sink>(
    rt: &R,
    alloc: Global,
    shelf: &mut H,
    sink: &mut K,
    names: &FileNames,
    name: &str,
    lines: &ScriptLines,
    out: &mut TextOut,
    opening: Opening,
    legs: Vec<H::Leg>,
) -> ImagesEnd
    requires images { AreImages (H.contents shelf.old) name.now opening
        (map H.Leg.contents legs.items) (map H.Leg.size legs.items) }
    requires base { length opening.base ≡ opening.sizes.room }
    requires names { names.now ≡ leg_names name.now }
    requires many { length legs.items ≤ 8 }
    requires empty { out.old ≡ [] }
    ensures { Ends (record {
      files = H.contents shelf.old;
      files_after = H.contents shelf.new;
      faults = H.faults shelf.old;
      faults_after = H.faults shelf.new;
      leg_faults = H.leg_faults shelf.old;
      leg_faults_after = H.leg_faults shelf.new;
    }) name.now lines.now (record {
      written = K.written sink.old;
      written_after = K.written sink.new;
      faults = K.faults sink.old;
      faults_after = K.faults sink.new;
    }) result }
{
    match World::open(alloc, legs, opening) {
        Ok(world) => run_world(rt, alloc, shelf, sink, names, name, lines, out, world),
        Err(NoWorld { legs, opening: _ }) => {
            let _ = close_after(shelf, names, legs, ImageError::Memory(AllocError));
            ImagesEnd::Memory
        }
    }
}

/// Plays the lines of a script over the images of the array of this name: it opens all legs, plays the
/// lines in order, writing a line of text for each, and gives the legs back whatever ended the lines.
/// The images are what the events have left on the legs.
///
/// `Image` with the first fault of the images, before any line is played. `Shelf` where the shelf failed
/// in a call on that leg's file, or that leg failed while the images were opened; where a leg isn't
/// taken back, that is told only if all lines were played. `Write` where a write failed, `TraceFull`
/// where an event found the trace full, and `Memory`.
pub fn play_images<R: Threads + Sync, H: Shelf, K: Sink>(
    rt: &R,
    alloc: Global,
    shelf: &mut H,
    sink: &mut K,
    name: &str,
    lines: &ScriptLines,
    out: &mut TextOut,
) -> ImagesEnd
    requires empty { out.old ≡ [] }
    ensures { Ends (record {
      files = H.contents shelf.old;
      files_after = H.contents shelf.new;
      faults = H.faults shelf.old;
      faults_after = H.faults shelf.new;
      leg_faults = H.leg_faults shelf.old;
      leg_faults_after = H.leg_faults shelf.new;
    }) name.now lines.now (record {
      written = K.written sink.old;
      written_after = K.written sink.new;
      faults = K.faults sink.old;
      faults_after = K.faults sink.new;
    }) result }
{
    let Ok(names) = FileNames::new(alloc, name) else {
        return ImagesEnd::Memory;
    };
    match open_array(rt, alloc, shelf, name, Versions::Any) {
        Ok(
            Opened {
                opening,
                legs,
                images: _,
            },
        ) => run_legs(
            rt, alloc, shelf, sink, &names, name, lines, out, opening, legs,
        ),
        Err(error) => images_end(tell_error(alloc, sink, name, error)),
    }
}
