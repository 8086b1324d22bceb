ghost use Rattle.std.specs.Prelude.{◌≡◌, List, ℕ, false, length, is_ok, IfOk, IfSome, true, ◌<◌};
ghost use Rattle.std.specs.Thread.{IsSync};
ghost use Rattle.turn_table.specs.Turns.{seats_of, HasOne, IsNoteOf};
ghost use Rattle.turn_table.specs.Seats.{told_by};

use crate::{Act, Note, Seat, Story, Turn};
use std::alloc::{AllocError, Global};
use std::sync::Wait;
use std::test::Fail;
use std::thread::{Threads, join};

// Numbers that threads append, each beside the number of the seat.
#[derive(Drop)]
struct Row {
    entries: Vec<(u32, u64)>,
}

impl Story for Row {
    type Item = (u32, u64);

    type Origin = ();

    ghost origin = { λ s. tt };

    ghost entries = { λ s. s.entries.items };

    ghost number = { λ x. x.0 };

    fn count(&self) -> u64 {
        self.entries.len() as u64
    }
}

// Appends a value, and tells its place.
#[derive(Drop)]
struct Append {
    value: u64,
}

impl Act<Row> for Append {
    type Reply = Result<u64, AllocError>;

    ghost relation = { λ a b o before after r. IfOk r (λ place. place ≡ length before) };

    ghost adds = { is_ok };

    fn run(&mut self, story: &mut Row, number: u32) -> Result<u64, AllocError> {
        let place = story.entries.len() as u64;
        story.entries.push((number, self.value))?;
        Ok(place)
    }
}

// Tells how many entries there are.
#[derive(Drop)]
struct Look;

impl Act<Row> for Look {
    type Reply = u64;

    ghost relation = { λ a b o before after r. r ≡ length before };

    ghost adds = { λ r. false };

    fn run(&mut self, story: &mut Row, _number: u32) -> u64 {
        story.entries.len() as u64
    }
}

type Four = (Turn<Row>, Seat<Row>, Seat<Row>, Seat<Row>, Seat<Row>);

// A turn over an empty row, and four seats with a number each.
fn four_seats(alloc: Global) -> Option<Four>
    ensures turn { IfSome result (λ r. seats_of r.0 ≡ 4) }
    ensures seats { IfSome result (λ r. HasOne r.0 r.1 × HasOne r.0 r.2
        × HasOne r.0 r.3 × HasOne r.0 r.4) }
{
    let row = Row {
        entries: Vec::new(alloc),
    };
    let Ok((turn, seat)) = Turn::open(alloc, row, 4) else {
        return None;
    };
    let (seat, d) = turn.split(seat);
    let (seat, c) = turn.split(seat);
    let (a, b) = turn.split(seat);
    Some((turn, a, b, c, d))
}

// Appends the values below `count`, until memory runs out.
fn append_all<R: Wait>(rt: &R, turn: &Turn<Row>, mut seat: Seat<Row>, count: u64) -> Seat<Row>
    requires { HasOne turn.now seat }
    ensures { HasOne turn.now result }
{
    for value in 0..count {
        if turn.act(rt, &mut seat, &mut Append { value }).is_err() {
            break;
        }
    }
    seat
}

// Appends by two threads.
fn by_two<R: Threads + Wait + Sync>(
    rt: &R,
    turn: &Turn<Row>,
    a: Seat<Row>,
    b: Seat<Row>,
    count: u64,
) -> (Seat<Row>, Seat<Row>)
    requires { HasOne turn.now a × HasOne turn.now b }
    ensures { HasOne turn.now result.0 × HasOne turn.now result.1 }
{
    join(
        rt,
        || -> Seat<Row>
            requires { HasOne turn.now a }
            ensures { HasOne turn.entry.now result }
        { append_all(rt, turn, a, count) },
        || -> Seat<Row>
            requires { HasOne turn.now b }
            ensures { HasOne turn.entry.now result }
        { append_all(rt, turn, b, count) },
    )
}

// What four threads appended, each the values below `count`.
fn by_four<R: Threads + Wait + Sync>(rt: &R, alloc: Global, count: u64) -> Option<Row> {
    let (turn, a, b, c, d) = four_seats(alloc)?;
    let here = &turn;
    let ((a, b), (c, d)) = join(
        rt,
        || -> (Seat<Row>, Seat<Row>)
            requires { IsSync R.row × HasOne here.now a × HasOne here.now b }
            ensures { HasOne here.entry.now result.0 × HasOne here.entry.now result.1 }
        { by_two(rt, here, a, b, count) },
        || -> (Seat<Row>, Seat<Row>)
            requires { IsSync R.row × HasOne here.now c × HasOne here.now d }
            ensures { HasOne here.entry.now result.0 × HasOne here.entry.now result.1 }
        { by_two(rt, here, c, d, count) },
    );
    let Ok(seats) = Vec::from_array(alloc, [a, b, c, d]) else {
        return None;
    };
    Some(turn.close(seats))
}

#[test]
fn four_threads_append(rt: HostRuntime) -> Result<(), Fail> {
    const EACH: u64 = 10_000;
    let Some(row) = by_four(&rt, rt.alloc(), EACH) else {
        panic!(rt; "no memory");
    };
    assert_eq!(rt; row.entries.len(), 40_000);
    let mut next = [0u64; 4];
    for (number, value) in row.entries.iter() {
        assert!(rt; *number < 4);
        let at = &mut next[*number as usize];
        assert_eq!(rt; *value, *at);
        *at = at.wrapping_add(1);
    }
    assert!(rt; next == [EACH; 4]);
    Ok(())
}

// Appends a value, and writes a note of what was seen: the entry's place is in it.
fn append_and_note<R: Wait>(
    rt: &R,
    turn: &Turn<Row>,
    mut seat: Seat<Row>,
) -> Option<(Seat<Row>, Note<Row>, u64)>
    requires { HasOne turn.now seat }
    ensures { IfSome result (λ r. HasOne turn.now r.0 × IsNoteOf turn.now r.1
        × (r.2 < length (told_by r.1))) }
{
    let Ok(place) = turn.act(rt, &mut seat, &mut Append { value: 7 }) else {
        return None;
    };
    let note = turn.note(&mut seat);
    Some((seat, note, place))
}

// Hears a note, and says whether there is an entry at a place that the note's maker had seen.
fn hear_and_find<R: Wait>(
    rt: &R,
    turn: &Turn<Row>,
    mut seat: Seat<Row>,
    note: Note<Row>,
    place: u64,
) -> bool
    requires seat { HasOne turn.now seat × IsNoteOf turn.now note }
    requires told { place < length (told_by note) }
    ensures { result ≡ true }
{
    turn.hear(&mut seat, note);
    place < turn.act(rt, &mut seat, &mut Look)
}

// One thread appends and gives its note to another, which then finds the entry.
fn told<R: Threads + Wait + Sync>(rt: &R, alloc: Global) -> Option<bool>
    ensures { IfSome result (λ found. found ≡ true) }
{
    let (turn, a, b, _c, _d) = four_seats(alloc)?;
    let here = &turn;
    let (told, b) = join(
        rt,
        || -> Option<(Seat<Row>, Note<Row>, u64)>
            requires { HasOne here.now a }
            ensures { IfSome result (λ r. HasOne here.entry.now r.0 × IsNoteOf here.entry.now r.1
                × (r.2 < length (told_by r.1))) }
        { append_and_note(rt, here, a) },
        || -> Seat<Row>
            requires { HasOne here.now b }
            ensures { HasOne here.entry.now result }
        { append_all(rt, here, b, 5) },
    );
    let (_a, note, place) = told?;
    let (found, ()) = join(
        rt,
        || -> bool
            requires { HasOne here.now b × IsNoteOf here.now note
                × (place < length (told_by note)) }
            ensures { result ≡ true }
        { hear_and_find(rt, here, b, note, place) },
        || (),
    );
    Some(found)
}

#[test]
fn a_note_goes_to_another_thread(rt: HostRuntime) {
    assert!(rt; told(&rt, rt.alloc()) == Some(true));
}

#[test]
fn a_seat_alone_gets_the_turn(rt: HostRuntime) {
    let row = Row {
        entries: Vec::new(rt.alloc()),
    };
    let Ok((turn, mut seat)) = Turn::open(rt.alloc(), row, 4) else {
        panic!(rt; "no memory");
    };
    assert!(rt; seat.numbers() == 4);
    assert!(rt; matches!(turn.try_act(&mut seat, &mut Append { value: 1 }), Ok(Ok(0))));
    assert!(rt; matches!(turn.try_act(&mut seat, &mut Look), Ok(1)));
}
