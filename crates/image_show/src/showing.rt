ghost use Rattle.std.specs.Prelude.{◌≡◌, ◌≤◌, IfErr, IfOk, List, OnOk, string_bytes};
ghost use Rattle.image_faults.specs.declared.legs.LegImage.{LegImage};
ghost use Rattle.image_files.specs.Closed.{NeverFalls};
ghost use Rattle.image_files.specs.Ends.{IsOfLeg};
ghost use Rattle.image_texts.specs.Shown.{show_text};
ghost use Rattle.image_ends.specs.Answers.{Answers};
ghost use Rattle.image_show.specs.Showing.{AreShown, ShowEnds, ShowErrs};

use image_ends::{CommandEnd, tell, tell_error};
use image_faults::{ImageError, LegImage};
use image_files::close;
use image_opening::{Opened, Versions, open_array};
use image_texts::show_text;
use leg_shelf::Shelf;
use script_text::Sink;
use std::alloc::Global;
use std::thread::Threads;

// The text of the images of the array, all of whose legs were given back.
fn shown<R: Threads + Sync, H: Shelf>(
    rt: &R,
    alloc: Global,
    shelf: &mut H,
    name: &str,
) -> Result<String, ImageError>
    ensures text { IfOk result (λ text. (images : List LegImage)
        × (AreShown (H.contents shelf.old) name.now images
        × (string_bytes text ≡ show_text images))) }
    ensures same { OnOk result (H.contents shelf.new ≡ H.contents shelf.old) }
    ensures error { IfErr result (ShowErrs (record {
      files = H.contents shelf.old;
      files_after = H.contents shelf.new;
      faults = H.faults shelf.old;
      faults_after = H.faults shelf.new;
      leg_faults = H.leg_faults shelf.old;
      leg_faults_after = H.leg_faults shelf.new;
    }) name.now) }
    ensures leg { IfErr result IsOfLeg }
    ensures counts { NeverFalls (H.leg_faults shelf.old) (H.leg_faults shelf.new) }
    ensures later { H.faults shelf.old ≤ H.faults shelf.new }
{
    let Opened {
        opening: _,
        legs,
        images,
    } = open_array(rt, alloc, shelf, name, Versions::Any)?;
    let text = show_text(alloc, images.as_slice());
    close(alloc, shelf, name, legs)?;
    Ok(text?)
}

/// Prints what stands in the images of the array of this name: for each leg a line
/// `leg LEG events E roles ROLES sum H`, and a line `slot LEG K set SET` for each of its slots. No image is
/// changed.
///
/// The lines are printed only once all images were read and given back. `Image` with the first fault of
/// the images; `Shelf` where the shelf failed in a call on that leg's file, or that leg failed; `Write`
/// where a write failed; and `Memory`.
pub fn show_images<R: Threads + Sync, H: Shelf, K: Sink>(
    rt: &R,
    alloc: Global,
    shelf: &mut H,
    sink: &mut K,
    name: &str,
) -> CommandEnd
    ensures answers { Answers (ShowEnds (record {
      files = H.contents shelf.old;
      files_after = H.contents shelf.new;
      faults = H.faults shelf.old;
      faults_after = H.faults shelf.new;
      leg_faults = H.leg_faults shelf.old;
      leg_faults_after = H.leg_faults shelf.new;
    }) name.now)
        (record {
          written = K.written sink.old;
          written_after = K.written sink.new;
          faults = K.faults sink.old;
          faults_after = K.faults sink.new;
        }) result }
    ensures counts { NeverFalls (H.leg_faults shelf.old) (H.leg_faults shelf.new) }
    ensures shelf_later { H.faults shelf.old ≤ H.faults shelf.new }
    ensures sink_later { K.faults sink.old ≤ K.faults sink.new }
{
    match shown(rt, alloc, shelf, name) {
        Ok(text) => tell(sink, text.as_str(), CommandEnd::Done),
        Err(error) => tell_error(alloc, sink, name, error),
    }
}
