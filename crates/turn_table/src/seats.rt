ghost use Rattle.std.specs.Prelude.{◌≡◌, [], false};
ghost use Rattle.turn_table.specs.Away.{IsAway, NoneElse};

use crate::stories::Story;
use crate::views::Place;

/// A seat at a turn: what one thread has seen of the story, and some numbers, of which its entries
/// name the first.
pub struct Seat<T: Story> {
    pub(crate) place: Place<T>,
    pub(crate) first: u32,
    pub(crate) count: u32,
    ghost away: { IsAway first count place.me.0 × (place.me.1 ≡ []) },
    ghost none_else: { NoneElse T.number first place.me.0 },
}

/// What a seat has seen, for another to hear. It has no number and takes no memory.
pub struct Note<T: Story> {
    pub(crate) place: Place<T>,
    ghost blank: { (place.me.0.numbers ≡ []) × (place.me.0.more ≡ []) },
    ghost away: { (place.me.0.inside ≡ false) × (place.me.1 ≡ []) },
}

/// Another seat was in the turn.
#[derive(Drop)]
pub struct Busy {
    /// What the turn's word was: one more than the number of that seat's entries.
    pub word: u64,
}

/// There was no memory. The value comes back.
#[derive(Drop)]
pub struct OpenEnd<T> {
    pub value: T,
}

impl<T: Story> Seat<T> {
    ghost use Rattle.std.specs.Prelude.{length};
    ghost use Rattle.turn_table.specs.Seats.{numbers};

    /// How many numbers it has.
    pub fn numbers(&self) -> u32
        ensures { result ≡ length (numbers self.now) }
    {
        self.count
    }

    pub(crate) fn into_place(self) -> Place<T>
        ensures { result ≡ self.place }
    {
        let Self {
            place,
            first: _,
            count: _,
        } = self;
        place
    }
}

impl<T: Story> Note<T> {
    pub(crate) fn into_place(self) -> Place<T>
        ensures { result ≡ self.place }
    {
        let Self { place } = self;
        place
    }
}

impl<T: Story> Drop for Seat<T> {
    fn drop(self) {
        let Self {
            place: _,
            first: _,
            count: _,
        } = self;
    }
}

impl<T: Story> Drop for Note<T> {
    fn drop(self) {
        let Self { place: _ } = self;
    }
}
