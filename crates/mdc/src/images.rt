ghost use Rattle.std.specs.Prelude.{◌≡◌, []};
ghost use Rattle.mdc.specs.ImageAnswers.{ImagesJudged};

use crate::endings::tell_fault;
use crate::status::{Status, images_status};
use image_play::play_images;
use leg_shelf::Shelf;
use script_text::{ScriptEnd, Sink, TextOut, read_images};
use std::alloc::Global;
use std::thread::Threads;

/// Judges the bytes as a script of images, and plays them over the images of the array of this name.
pub fn image_bytes<R: Threads + Sync, H: Shelf, K: Sink>(
    rt: &R,
    alloc: Global,
    bytes: &[u8],
    name: &str,
    shelf: &mut H,
    sink: &mut K,
) -> Status
    ensures { ImagesJudged bytes.now name.now (record {
      files = H.contents shelf.old;
      files_after = H.contents shelf.new;
      faults = H.faults shelf.old;
      faults_after = H.faults shelf.new;
      leg_faults = H.leg_faults shelf.old;
      leg_faults_after = H.leg_faults shelf.new;
    }) (record {
      written = K.written sink.old;
      written_after = K.written sink.new;
      faults = K.faults sink.old;
      faults_after = K.faults sink.new;
    }) result }
{
    match read_images(alloc, bytes) {
        Ok(lines) => match TextOut::new(alloc) {
            Ok(mut out) => {
                images_status(play_images(rt, alloc, shelf, sink, name, &lines, &mut out))
            }
            Err(_) => Status::Memory,
        },
        Err(ScriptEnd::Fault(fault)) => tell_fault(alloc, fault, sink),
        Err(ScriptEnd::Memory) => Status::Memory,
    }
}
