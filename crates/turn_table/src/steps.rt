//! The steps of a turn, and how seats are made one.
ghost use Rattle.std.specs.Prelude.{◌≡◌, ℕ, ◌+◌, ◌^◌, ◌<◌, [], ◌∷◌, length, All, MatchBool, IfOk, IfErr, true, false};
ghost use Rattle.turn_table.specs.Lists.{BeginsWith, own, first_of, Adds, Has};
ghost use Rattle.turn_table.specs.Held.{HasValue, Ran};
ghost use Rattle.turn_table.specs.Rule.{in_hand};
ghost use Rattle.turn_table.specs.Views.{learned, told};
ghost use Rattle.turn_table.specs.Gathered.{Gathers};

use crate::plays::{Count, Free, Learn, Take};
use crate::seats::{OpenEnd, Seat};
use crate::stories::{Act, Story};
use crate::views::{Place, Top};
use std::alloc::{AllocFailed, Global};

// Takes in what another has seen, and its numbers.
pub(crate) fn take_in<T: Story>(top: &Top<T>, place: &mut Place<T>, other: Place<T>)
    requires table { (place.old.table_id ≡ top.now.table_id) × (other.table_id ≡ top.now.table_id)
        × (top.now.table_id.words ≡ 2) }
    requires place { (place.old.me.0.inside ≡ false) × (place.old.me.0.more ≡ [])
        × (0 < length place.old.me.0.numbers) }
    requires other { (other.me.0.inside ≡ false) × (other.me.0.more ≡ []) × (other.me.1 ≡ []) }
    ensures place { (place.new.table_id ≡ place.old.table_id) × (place.new.id ≡ place.old.id) }
    ensures both { place.new.me ≡ (learned (told place.old.me.0 other.me.0), place.old.me.1) }
    ensures seen { BeginsWith place.new.me.0.seen place.old.me.0.seen
        × BeginsWith place.new.me.0.seen other.me.0.seen }
    ensures own_old { (n : ℕ) → Has place.old.me.0.numbers n
        → own T.number n place.old.me.0.seen ≡ own T.number n place.new.me.0.seen }
    ensures own_other { (n : ℕ) → Has other.me.0.numbers n
        → own T.number n other.me.0.seen ≡ own T.number n place.new.me.0.seen }
{
    top.join_seat::<Take>(place, other);
    top.load::<Learn>(place, 0);
}

// Takes in what all these seats have seen, and their numbers.
pub(crate) fn take_in_all<T: Story>(top: &Top<T>, place: &mut Place<T>, mut seats: Vec<Seat<T>>)
    requires table { (place.old.table_id ≡ top.now.table_id) × (top.now.table_id.words ≡ 2) }
    requires seats { All (λ s. s.place.table_id ≡ top.now.table_id) seats.items }
    requires place { (place.old.me.0.inside ≡ false) × (place.old.me.0.more ≡ [])
        × (0 < length place.old.me.0.numbers) }
    ensures place { (place.new.table_id ≡ place.old.table_id) × (place.new.me.1 ≡ place.old.me.1) }
    ensures all { Gathers place.old.me.0 seats.items place.new.me.0 }
{
    while let Some(seat) = seats.pop() {
        take_in(top, place, seat.into_place());
    }
}

// Does the act on the value that the place has, and says whether the list grew.
pub(crate) fn run_here<T: Story, A: Act<T>>(
    top: &Top<T>,
    place: &mut Place<T>,
    act: &mut A,
    number: u32,
) -> (A::Reply, bool)
    requires table { place.old.table_id ≡ top.now.table_id }
    requires value { HasValue place.old.me (λ y. Unit {0}) }
    ensures place { (place.new.table_id ≡ place.old.table_id) × (place.new.id ≡ place.old.id)
        × (place.new.me.0 ≡ place.old.me.0) }
    ensures ran { HasValue place.old.me (λ y. HasValue place.new.me (λ z.
        Ran T.Story number result.1 y z
        × A.relation act.old act.new (T.origin y) (T.entries y) (T.entries z) result.0)) }
    ensures told { result.1 ≡ A.adds result.0 }
{
    let story = place.slot_mut(top, 0);
    let before = story.count();
    let reply = act.run(story, number);
    let grew = story.count() > before;
    (reply, grew)
}

// Counts the new entry, if the list grew.
pub(crate) fn count_entry<T: Story>(top: &Top<T>, place: &mut Place<T>, grew: bool)
    requires table { (place.old.table_id ≡ top.now.table_id) × (top.now.table_id.words ≡ 2) }
    requires inside { (place.old.me.0.inside ≡ true) × (place.old.me.0.more ≡ []) }
    requires value { HasValue place.old.me (λ y. (length (T.entries y) < 2 ^ 64)
        × MatchBool grew
        (Adds T.number (first_of place.old.me.0.numbers) place.old.me.0.seen (T.entries y))
        (T.entries y ≡ place.old.me.0.seen)) }
    ensures place { (place.new.table_id ≡ place.old.table_id) × (place.new.id ≡ place.old.id) }
    ensures seen { place.new.me ≡ (
      record place.old.me.0 {
        seen = in_hand T.entries place.old.me.1;
      },
      place.old.me.1,
    ) }
{
    if grew {
        top.fetch_add::<Count>(place, 0, 1);
    }
}

// Gives the value back, and leaves the turn.
pub(crate) fn leave<T: Story>(top: &Top<T>, place: &mut Place<T>)
    requires table { (place.old.table_id ≡ top.now.table_id) × (top.now.table_id.words ≡ 2) }
    requires inside { place.old.me.0.inside ≡ true }
    requires value { HasValue place.old.me (λ y. (T.origin y ≡ T.origin top.now.key.value.value)
        × (T.entries y ≡ place.old.me.0.seen)) }
    ensures place { (place.new.table_id ≡ place.old.table_id) × (place.new.id ≡ place.old.id) }
    ensures left { place.new.me ≡ (record place.old.me.0 { inside = false }, []) }
{
    top.swap::<Free>(place, 1, 0);
}

// The value alone in a `Vec`.
pub(crate) fn one_slot<T>(alloc: Global, value: T) -> Result<Vec<T>, OpenEnd<T>>
    ensures ok { IfOk result (λ slots. slots.items ≡ value ∷ []) }
    ensures err { IfErr result (λ e. e.value ≡ value) }
{
    let mut slots = Vec::new(alloc);
    match slots.push(value) {
        Ok(()) => Ok(slots),
        Err(failed) => {
            let AllocFailed { value } = failed;
            slots.destroy_empty();
            Err(OpenEnd { value })
        }
    }
}

// The only value of the `Vec`.
pub(crate) fn only<T>(slots: Vec<T>) -> T
    requires { length slots.items ≡ 1 }
    ensures { slots.items ≡ result ∷ [] }
{
    let mut slots = slots;
    let value = slots.pop().unwrap();
    slots.destroy_empty();
    value
}
