ghost use Rattle.std.specs.Prelude.{◌≡◌, ◌-◌, ◌^◌};
ghost use Rattle.auto_driver.specs.Storming.{counted_as, with_event, with_refused, none_of, AllBelow};

use mdc_types::{Event, Outcome};

/// What a storm did.
#[derive(Clone, Copy, PartialEq, Eq, Debug)]
pub struct Summary {
    pub turns: u32,
    /// Accepted events.
    pub events: u32,
    pub refused: u32,
    /// Accepted writes.
    pub writes: u32,
    /// Writes that ended as finished.
    pub ended: u32,
    /// Reads that gave a value.
    pub reads: u32,
    pub deaths: u32,
    /// Slots that were recovered.
    pub recovered: u32,
}

/// What an accepted event counts as, beside being an event.
#[derive(Clone, Copy)]
pub enum Counted {
    Write,
    Ended,
    Read,
    Death,
    Recovered,
    Other,
}

/// What the event counts as.
pub fn counted_as(e: &Event, o: &Outcome) -> Counted
    ensures { result ≡ counted_as e.now o.now }
{
    match (e, o) {
        (Event::AskWrite(..), _) => Counted::Write,
        (Event::EndWrite(..), _) => Counted::Ended,
        (Event::In(..), Outcome::Value { .. }) => Counted::Read,
        (Event::Die(_), _) => Counted::Death,
        (Event::Recovered(_), _) => Counted::Recovered,
        _ => Counted::Other,
    }
}

impl Summary {
    /// Nothing yet, of so many turns.
    pub fn none_of(turns: u32) -> Summary
        ensures { result ≡ none_of turns }
    {
        Summary {
            turns,
            events: 0,
            refused: 0,
            writes: 0,
            ended: 0,
            reads: 0,
            deaths: 0,
            recovered: 0,
        }
    }

    /// One accepted event more.
    pub fn count(&mut self, counted: Counted)
        requires { AllBelow (2 ^ 32 - 1) self.old }
        ensures { self.new ≡ with_event self.old counted }
    {
        self.events += 1;
        match counted {
            Counted::Write => self.writes += 1,
            Counted::Ended => self.ended += 1,
            Counted::Read => self.reads += 1,
            Counted::Death => self.deaths += 1,
            Counted::Recovered => self.recovered += 1,
            Counted::Other => {}
        }
    }

    /// One refused event more.
    pub fn count_refused(&mut self)
        requires { AllBelow (2 ^ 32 - 1) self.old }
        ensures { self.new ≡ with_refused self.old }
    {
        self.refused += 1;
    }
}
