ghost use Rattle.std.specs.Prelude.{◌≡◌, ◌≢◌, ◌≤◌, ℕ, List, Option, IfErr, IfOk, length, string_bytes};
ghost use Rattle.mdc_types.specs.declared.numbers.Sector.{Sector};
ghost use Rattle.image_faults.specs.declared.legs.LegImage.{LegImage};
ghost use Rattle.image_files.specs.Closed.{NeverFalls};
ghost use Rattle.image_texts.specs.Lines.{upgraded_text};
ghost use Rattle.image_ends.specs.Answers.{Answers};
ghost use Rattle.image_upgrade.specs.Ends.{IsOfLeg};
ghost use Rattle.image_upgrade.specs.Told.{TellsUpgrade};
ghost use Rattle.image_upgrade.specs.Upgrading.{AreUpgraded, UpgradeEnds, UpgradeErrs};

use crate::ends::UpgradeError;
use crate::storing::store_all;
use image_ends::{CommandEnd, tell, tell_error, tell_new};
use image_files::{FileNames, close_after, close_all};
use image_opening::{Opened, Versions, open_array};
use leg_shelf::Shelf;
use script_text::Sink;
use std::alloc::Global;
use std::thread::Threads;

// Stores the new images, and gives the old legs back. The text is that of the new images.
fn upgraded<R: Threads + Sync, H: Shelf>(
    rt: &R,
    alloc: Global,
    shelf: &mut H,
    from: &str,
    to: &str,
) -> Result<String, UpgradeError>
    requires { from.now ≢ to.now }
    ensures text { IfOk result (λ text. AreUpgraded (record {
      files = H.contents shelf.old;
      files_after = H.contents shelf.new;
      faults = H.faults shelf.old;
      faults_after = H.faults shelf.new;
      leg_faults = H.leg_faults shelf.old;
      leg_faults_after = H.leg_faults shelf.new;
    }) from.now to.now (string_bytes text)) }
    ensures error { IfErr result (UpgradeErrs (record {
      files = H.contents shelf.old;
      files_after = H.contents shelf.new;
      faults = H.faults shelf.old;
      faults_after = H.faults shelf.new;
      leg_faults = H.leg_faults shelf.old;
      leg_faults_after = H.leg_faults shelf.new;
    }) from.now to.now) }
    ensures leg { IfErr result IsOfLeg }
    ensures counts { NeverFalls (H.leg_faults shelf.old) (H.leg_faults shelf.new) }
    ensures later { H.faults shelf.old ≤ H.faults shelf.new }
{
    let names = FileNames::new(alloc, from)?;
    let Opened {
        opening: _,
        mut legs,
        images,
    } = open_array(rt, alloc, shelf, from, Versions::First)?;
    match store_all(alloc, shelf, to, &images, &mut legs) {
        Ok(text) => {
            close_all(shelf, &names, legs)?;
            Ok(text)
        }
        Err(UpgradeError::Old(end)) => {
            Err(UpgradeError::Old(close_after(shelf, &names, legs, end)))
        }
        Err(UpgradeError::New(l)) => {
            let _ = close_all(shelf, &names, legs);
            Err(UpgradeError::New(l))
        }
    }
}

// Prints why an array wasn't upgraded.
fn tell_upgrade<K: Sink>(
    alloc: Global,
    sink: &mut K,
    from: &str,
    to: &str,
    error: UpgradeError,
) -> CommandEnd
    requires leg { IsOfLeg error }
    ensures told { TellsUpgrade (record {
      written = K.written sink.old;
      written_after = K.written sink.new;
      faults = K.faults sink.old;
      faults_after = K.faults sink.new;
    }) from.now to.now error result }
    ensures later { K.faults sink.old ≤ K.faults sink.new }
{
    match error {
        UpgradeError::Old(error) => tell_error(alloc, sink, from, error),
        UpgradeError::New(l) => tell_new(alloc, sink, to, l),
    }
}

/// Makes an array of image version 2 under the name `to`, of the array of version 1 under `from`: each
/// leg has its superblock but for the version, the sets of its slots 0 to 7, eight empty slots more, and
/// its data. The images under `from` aren't changed. It prints `upgraded TO.LEG` for each leg once all are
/// stored.
///
/// `Image` with the first fault of the old images, which is `Upgraded` of leg 0 where that has version 2
/// already; `Shelf` where the shelf failed in a call on that leg's file under `from`, or that leg failed;
/// `ShelfTo` where it failed in a call on that leg's file under `to`; `Write` where a write failed; and
/// `Memory`. The new images of lower legs may then be stored, and after `Write` all of them may be.
pub fn upgrade_images<R: Threads + Sync, H: Shelf, K: Sink>(
    rt: &R,
    alloc: Global,
    shelf: &mut H,
    sink: &mut K,
    from: &str,
    to: &str,
) -> CommandEnd
    requires { from.now ≢ to.now }
    ensures answers { Answers (UpgradeEnds (record {
      files = H.contents shelf.old;
      files_after = H.contents shelf.new;
      faults = H.faults shelf.old;
      faults_after = H.faults shelf.new;
      leg_faults = H.leg_faults shelf.old;
      leg_faults_after = H.leg_faults shelf.new;
    }) from.now to.now)
        (record {
          written = K.written sink.old;
          written_after = K.written sink.new;
          faults = K.faults sink.old;
          faults_after = K.faults sink.new;
        }) result }
    ensures counts { NeverFalls (H.leg_faults shelf.old) (H.leg_faults shelf.new) }
    ensures shelf_later { H.faults shelf.old ≤ H.faults shelf.new }
    ensures sink_later { K.faults sink.old ≤ K.faults sink.new }
{
    match upgraded(rt, alloc, shelf, from, to) {
        Ok(text) => tell(sink, text.as_str(), CommandEnd::Done),
        Err(error) => tell_upgrade(alloc, sink, from, to, error),
    }
}
