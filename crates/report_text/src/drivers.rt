ghost use Rattle.std.specs.Prelude.{◌≡◌, IfOk, string_bytes, codes};
ghost use Rattle.report_text.specs.Drivers.{auto_line, event_counts, end_counts, storm_line};
ghost use Rattle.report_text.specs.Lines.{line};

use crate::line::Field::{Number, Word};
use crate::line::Line::One;
use crate::line::join;
use std::alloc::{AllocError, Global};

/// What came of a storm.
#[derive(Clone, Copy, PartialEq, Eq, Debug)]
pub struct StormCounts {
    /// The number of its turns.
    pub turns: u32,
    /// The number of accepted events.
    pub events: u32,
    /// The number of refused events.
    pub refused: u32,
    /// The number of accepted writes.
    pub writes: u32,
    /// The number of writes that ended, written to all targets.
    pub ended: u32,
    /// The number of reads that gave a value.
    pub reads: u32,
    /// The number of nodes that died.
    pub deaths: u32,
    /// The number of recoveries that ended.
    pub recovered: u32,
}

/// The text of the line `auto K` where so many events were made. It has no line feed.
pub fn auto_text(alloc: Global, made: u32) -> Result<String, AllocError>
    ensures { IfOk result (λ t. string_bytes t ≡ auto_line made) }
{
    One("auto", Number(made as u64)).text(alloc)
}

fn storm_events(alloc: Global, s: &StormCounts) -> Result<String, AllocError>
    ensures { IfOk result (λ t. string_bytes t ≡ line (codes "storm") (event_counts s.now)) }
{
    let fields = [
        Word("turns"),
        Number(s.turns as u64),
        Word("events"),
        Number(s.events as u64),
        Word("refused"),
        Number(s.refused as u64),
        Word("writes"),
        Number(s.writes as u64),
    ];
    join(alloc, "storm", &fields)
}

fn storm_ends(alloc: Global, events: &str, s: &StormCounts) -> Result<String, AllocError>
    ensures { IfOk result (λ t. string_bytes t ≡ line events.now (end_counts s.now)) }
{
    let fields = [
        Word("ended"),
        Number(s.ended as u64),
        Word("reads"),
        Number(s.reads as u64),
        Word("deaths"),
        Number(s.deaths as u64),
        Word("recovered"),
        Number(s.recovered as u64),
    ];
    join(alloc, events, &fields)
}

/// The text of the line `storm SEED K`. It has no line feed.
pub fn storm_text(alloc: Global, s: &StormCounts) -> Result<String, AllocError>
    ensures { IfOk result (λ t. string_bytes t ≡ storm_line s.now) }
{
    let events = storm_events(alloc, s)?;
    storm_ends(alloc, events.as_str(), s)
}
