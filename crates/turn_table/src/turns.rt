ghost use Rattle.std.specs.Prelude.{◌≡◌, ◌≢◌, ◌+◌, ◌<◌, ◌≤◌, [], ◌∷◌, ◌++◌, length, All, Any, IfOk, IfErr, IsOk};
ghost use Rattle.turn_table.specs.Lists.{BeginsWith, longer, own, from, last_of};

use crate::plays::{Copied, Deal, Try};
use crate::seats::{Busy, Note, OpenEnd, Seat};
use crate::steps::{count_entry, leave, one_slot, only, run_here, take_in, take_in_all};
use crate::stories::{Act, Story};
use crate::views::{Board, Opening};
use atomic_table::{Refused, Table};
use std::alloc::Global;
use std::snapshot::Snapshot;
use std::sync::Wait;
use std::thread;

/// One value that threads take in turn. Each turn sees what all earlier turns left.
#[derive(Drop)]
pub struct Turn<T: Story> {
    board: Board<T>,
    ghost sized: { (board.shared.table_id.words ≡ 2) × (board.shared.table_id.slots ≡ 1) },
    ghost some_seat: { 0 < board.shared.key.seats },
}

impl<T: Story> Turn<T> {
    ghost use Rattle.turn_table.specs.Seats.{seen, numbers, number_of, mine, words, told_by};
    ghost use Rattle.turn_table.specs.Seats.{Keeps, all_numbers, Acted};
    ghost use Rattle.turn_table.specs.Turns.{opened_with, seats_of, IsSeatOf, IsNoteOf};

    /// Opens a turn over a value with no entries, for `seats` numbers, and gives the seat that has
    /// them all. Its one error is want of memory.
    pub fn open(alloc: Global, value: T, seats: u32) -> Result<(Turn<T>, Seat<T>), OpenEnd<T>>
        requires empty { T.entries value ≡ [] }
        requires some { 0 < seats }
        ensures turn { IfOk result (λ r. (opened_with r.0 ≡ value) × (seats_of r.0 ≡ seats)) }
        ensures seat { IfOk result (λ r. IsSeatOf r.0 r.1
            × (numbers r.1 ≡ from 0 seats) × (seen r.1 ≡ [])) }
        ensures err { IfErr result (λ e. e.value ≡ value) }
    {
        let about = Opening {
            seats,
            value: Snapshot::of(&value),
        };
        match Table::new(alloc, &[0, 0], one_slot(alloc, value)?, &about) {
            Ok((board, place)) => Ok((
                Turn { board },
                Seat {
                    place,
                    first: 0,
                    count: seats,
                },
            )),
            Err(refused) => {
                let Refused { slots } = refused;
                Err(OpenEnd { value: only(slots) })
            }
        }
    }

    /// Gives the last of the seat's numbers to a new seat, which has seen the same.
    pub fn split(&self, seat: Seat<T>) -> (Seat<T>, Seat<T>)
        requires seat { IsSeatOf self.now seat }
        requires two { 2 ≤ length (numbers seat) }
        ensures seats { IsSeatOf self.now result.0 × IsSeatOf self.now result.1 }
        ensures numbers { numbers seat ≡ numbers result.0 ++ numbers result.1 }
        ensures one { length (numbers result.1) ≡ 1 }
        ensures fewer { length (numbers result.0) + 1 ≡ length (numbers seat) }
        ensures first { number_of result.0 ≡ number_of seat }
        ensures last { number_of result.1 ≡ last_of (numbers seat) }
        ensures seen { (seen result.0 ≡ seen seat) × (seen result.1 ≡ seen seat) }
        ensures new { mine result.1 ≡ [] }
    {
        let (first, count) = (seat.first, seat.count);
        let mut place = seat.into_place();
        let last = self.board.shared.split_seat::<Deal>(&mut place);
        (
            Seat {
                place,
                first,
                count: count - 1,
            },
            Seat {
                place: last,
                first: first + (count - 1),
                count: 1,
            },
        )
    }

    /// A note of what the seat has seen.
    pub fn note(&self, seat: &mut Seat<T>) -> Note<T>
        requires { IsSeatOf self.now seat.old }
        ensures seat { IsSeatOf self.now seat.new × Keeps seat.old seat.new }
        ensures note { IsNoteOf self.now result × (told_by result ≡ seen seat.old) }
    {
        Note {
            place: self.board.shared.split_seat::<Copied>(&mut seat.place),
        }
    }

    /// Takes in what a note tells: the seat has then seen the longer of the two lists, which begins
    /// with both.
    pub fn hear(&self, seat: &mut Seat<T>, note: Note<T>)
        requires seat { IsSeatOf self.now seat.old }
        requires note { IsNoteOf self.now note }
        ensures seat { IsSeatOf self.now seat.new × (numbers seat.new ≡ numbers seat.old) }
        ensures seen { seen seat.new ≡ longer (seen seat.old) (told_by note) }
        ensures old { BeginsWith (seen seat.new) (seen seat.old) }
        ensures told { BeginsWith (seen seat.new) (told_by note) }
        ensures mine { mine seat.new ≡ mine seat.old }
        ensures words { words seat.new ≡ words seat.old }
    {
        take_in(&self.board.shared, &mut seat.place, note.into_place());
    }

    /// Tries once to take the turn, and does the act in it. `Busy` comes exactly where its one try
    /// found another seat's word, and then nothing was done.
    pub fn try_act<A: Act<T>>(&self, seat: &mut Seat<T>, act: &mut A) -> Result<A::Reply, Busy>
        requires { IsSeatOf self.now seat.old }
        ensures seat { IsSeatOf self.now seat.new × (numbers seat.new ≡ numbers seat.old) }
        ensures acted { IfOk result (λ reply.
            Acted A.relation A.adds (T.origin (opened_with self.now))
            act.old act.new seat.old seat.new reply) }
        ensures free { IfOk result (λ _. words seat.new ≡ words seat.old ++ 0 ∷ []) }
        ensures busy { IfErr result (λ e. words seat.new ≡ words seat.old ++ e.word ∷ []) }
        ensures taken { IfErr result (λ e. (e.word ≢ 0) × (e.word ≢ number_of seat.old + 1)) }
        ensures same { IfErr result (λ _. (act.new ≡ act.old) × (seen seat.new ≡ seen seat.old)) }
        ensures alone { length (numbers seat.old) ≡ seats_of self.now → IsOk result }
    {
        let own = u64::from(seat.first) + 1;
        let top = &self.board.shared;
        let found = top.compare_exchange::<Try>(&mut seat.place, 1, 0, own);
        if found != 0 {
            return Err(Busy { word: found });
        }
        let (reply, grew) = run_here(top, &mut seat.place, act, seat.first);
        count_entry(top, &mut seat.place, grew);
        leave(top, &mut seat.place);
        Ok(reply)
    }

    /// Waits for the turn, and does the act in it.
    pub fn act<A: Act<T>, R: Wait>(&self, rt: &R, seat: &mut Seat<T>, act: &mut A) -> A::Reply
        requires { IsSeatOf self.now seat.old }
        ensures seat { IsSeatOf self.now seat.new × (numbers seat.new ≡ numbers seat.old) }
        ensures acted { Acted A.relation A.adds (T.origin (opened_with self.now))
            act.old act.new seat.old seat.new result }
    {
        for _ in rt.forever() {
            match self.try_act(seat, act) {
                Ok(reply) => return reply,
                Err(_) => thread::yield_now(),
            }
        }
        unreachable!()
    }

    /// Ends the turn, once all its numbers are together again, and gives the value. Its entries are
    /// those of these seats, each seat's in its order, and no others.
    pub fn close(self, seats: Vec<Seat<T>>) -> T
        requires seats { All (IsSeatOf self) seats.items }
        requires whole { all_numbers seats.items ≡ seats_of self }
        ensures origin { T.origin result ≡ T.origin (opened_with self) }
        ensures seen { All (λ s. BeginsWith (T.entries result) (seen s)) seats.items }
        ensures own { All (λ s. own T.number (number_of s) (T.entries result) ≡ mine s)
            seats.items }
        ensures no_others { All (λ x. Any (λ s. T.number x ≡ number_of s) seats.items)
            (T.entries result) }
    {
        let mut seats = seats;
        let mut place = seats.pop().unwrap().into_place();
        take_in_all(&self.board.shared, &mut place, seats);
        let Turn { board } = self;
        let mut closed = board.close_with(place);
        let value = closed.take(0);
        closed.free();
        value
    }
}
