ghost use Rattle.std.specs.Prelude.{◌≡◌, ◌≤◌, length, true};
ghost use Rattle.mdc_types.specs.Names.{is_name};
ghost use Rattle.disk_image.specs.Created.{created_at};
ghost use Rattle.disk_image.specs.Files.{name_field};
ghost use Rattle.image_ends.specs.Answers.{Answers};
ghost use Rattle.image_commands.specs.Creating.{CreateEnds};

use disk_image::create;
use image_ends::{CommandEnd, tell, tell_error};
use image_texts::created_text;
use leg_shelf::Shelf;
use mdc_types::Geometry;
use script_text::Sink;
use std::alloc::Global;

/// Makes the images of a new array, `NAME.0`, `NAME.1`, .. of all its legs, and prints
/// `created NAME.LEG` for each once all are stored.
///
/// `Shelf` where the shelf failed in a call on that leg's file, `Write` where a write failed, and
/// `Memory`. The images of lower legs may then be stored, and after `Write` all of them may be. The
/// text is made first, so that only a write can fail once the images are stored.
pub fn create_images<H: Shelf, K: Sink>(
    alloc: Global,
    shelf: &mut H,
    sink: &mut K,
    geometry: Geometry,
    name: &str,
    uuid: [u8; 16],
) -> CommandEnd
    requires length { length name.now ≤ 32 }
    requires name { is_name (name_field name.now) ≡ true }
    ensures answers { Answers (CreateEnds (record {
      files = H.contents shelf.old;
      files_after = H.contents shelf.new;
      faults = H.faults shelf.old;
      faults_after = H.faults shelf.new;
      leg_faults = H.leg_faults shelf.old;
      leg_faults_after = H.leg_faults shelf.new;
    }) name.now
        (created_at (record { sizes = geometry; name = name_field name.now; uuid = uuid })))
        (record {
          written = K.written sink.old;
          written_after = K.written sink.new;
          faults = K.faults sink.old;
          faults_after = K.faults sink.new;
        }) result }
    ensures legs { H.leg_faults shelf.new ≡ H.leg_faults shelf.old }
    ensures shelf_later { H.faults shelf.old ≤ H.faults shelf.new }
    ensures sink_later { K.faults sink.old ≤ K.faults sink.new }
{
    match created_text(alloc, name, geometry.legs()) {
        Ok(text) => match create(alloc, shelf, geometry, name, uuid) {
            Ok(()) => tell(sink, text.as_str(), CommandEnd::Done),
            Err(error) => tell_error(alloc, sink, name, error),
        },
        Err(_) => CommandEnd::Memory,
    }
}
