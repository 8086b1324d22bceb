ghost use Rattle.std.specs.Prelude.{◌≡◌, ◌<◌, true, is_ok, Ok, Some, length, slice_get};
ghost use Rattle.script_text.specs.Header.{start_sizes};

use crate::reading::line_at;
use mdc_types::{Event, GeomError, Geometry, LegId, NodeId};
use std::marker::Model;

/// The array that a script begins with.
#[derive(Clone, Copy, PartialEq, Eq, Debug)]
pub struct Start {
    /// The number of legs, 2 to 8.
    pub legs: u8,
    /// The number of sectors, 1 to 131,072.
    pub sectors: u32,
    /// The number of sectors that each leg has room for, up to 131,072.
    pub room: u32,
    /// The number of sectors of a chunk, a power of two up to 1,024.
    pub chunk: u32,
    /// The number of nodes, 1 to 8, or 1 to 16 of image version 2. They are all members.
    pub nodes: u8,
    /// Whether the array opens with every bit of its members' write-intent bitmaps set, as after an
    /// unclean stop.
    pub warm: bool,
    /// Whether the image version is 2.
    pub second: bool,
    /// The legs that open as spares, one bit each.
    pub spares: u8,
}

/// The sizes of the array, if there is such an array.
pub(crate) fn geometry(start: &Start) -> Result<Geometry, GeomError>
    ensures { result ≡ start_sizes start.now }
{
    if start.second {
        Geometry::second(start.legs, start.sectors, start.room, start.chunk)
    } else {
        Geometry::grown(start.legs, start.sectors, start.room, start.chunk)
    }
}

impl Start {
    /// The sizes of the array of a script.
    pub fn geometry(&self) -> Geometry
        requires { is_ok (start_sizes self.now) ≡ true }
        ensures { start_sizes self.now ≡ Ok result }
    {
        match geometry(self) {
            Ok(sizes) => sizes,
            Err(_) => unreachable!(),
        }
    }
}

/// A transfer of a leg that fails. Transfers of a leg count from 0.
#[derive(Clone, Copy, PartialEq, Eq, Debug)]
pub struct FaultLine {
    pub leg: LegId,
    pub transfer: u32,
    /// Whether a write leaves the new sector, else the old one.
    pub new: bool,
}

/// A line of a script, before the line `end`. The first is an event, the next two have events that the
/// program chooses, and the others are queries, which are no events.
#[derive(Clone, Copy)]
pub enum Line {
    /// An event that is to be tried.
    Event(Event),
    /// `auto K`: up to so many events that help the cluster on.
    Auto(u32),
    /// `storm SEED K`: so many turns of events that are drawn from the seed.
    Storm { seed: u32, turns: u32 },
    /// The query `view N`: the roles of the legs for the node, and those that it lost.
    View(NodeId),
    /// The query `map N`: the chunks of the node's bitmap, and those that are to be copied.
    Map(NodeId),
    /// The query `slot L D`: the bits of the node's slot that surely stand on the leg.
    Slot { leg: LegId, node: NodeId },
    /// The query `record`: the member record.
    Record,
    /// The query `size N`: the size of the array for the node.
    Size(NodeId),
    /// The query `check`: whether what was done so far is a legal history.
    Check,
    /// The query `compare`: whether the working legs hold the same.
    Compare,
}

/// The lines of a script that is in the grammar. It keeps the bytes and where the lines stand in them,
/// and reads a line when it is asked for.
#[derive(Drop)]
pub struct ScriptLines<'a> {
    pub(crate) bytes: &'a [u8],
    // Where each line begins.
    pub(crate) places: Vec<u32>,
}

impl<'a> Model for ScriptLines<'a> {
    ghost use Rattle.std.specs.Prelude.{List};
    ghost use Rattle.script_text.specs.declared.script.Line.{Line};

    ghost Value = { List Line };

    ghost use Rattle.script_text.specs.Script.{line_of};
    ghost use Rattle.script_text.specs.Places.{lines_at, AreLines};

    ghost view = { λ s. lines_at line_of s.bytes.now s.places.items };

    ghost invariant = { λ s. AreLines line_of s.bytes.now s.places.items };
}

impl ScriptLines<'_> {
    /// The number of lines.
    pub fn len(&self) -> usize
        ensures { result ≡ length self.now }
    {
        self.places.len()
    }

    /// Line `i`, from 0.
    pub fn line(&self, i: usize) -> Line
        requires { i < length self.now }
        ensures { slice_get self.now i ≡ Some result }
    {
        match line_at::<Line>(self.bytes, self.places[i]) {
            Some(line) => line,
            None => unreachable!(),
        }
    }
}

/// A script that is in the grammar.
#[derive(Drop)]
pub struct Script<'a> {
    pub(crate) start: Start,
    pub(crate) faults: Vec<FaultLine>,
    pub(crate) lines: ScriptLines<'a>,
}

impl<'a> Model for Script<'a> {
    ghost use Rattle.script_text.specs.Script.{ScriptValue};

    ghost Value = { ScriptValue };

    ghost view = { λ s. record { start = s.start; faults = s.faults.items; lines = s.lines } };
}

impl<'a> Script<'a> {
    /// The array of the header, with its room and its spares.
    pub fn start(&self) -> &Start
        ensures { result.now ≡ self.now.start }
    {
        &self.start
    }

    /// The transfers that fail, in the order of their lines.
    pub fn faults(&self) -> &[FaultLine]
        ensures { result.now ≡ self.now.faults }
    {
        self.faults.as_slice()
    }

    /// The lines.
    pub fn lines(&self) -> &ScriptLines<'a>
        ensures { result.now ≡ self.now.lines }
    {
        &self.lines
    }

    /// The number of lines.
    pub fn len(&self) -> usize
        ensures { result ≡ length self.now.lines }
    {
        self.lines.len()
    }

    /// Line `i`, from 0.
    pub fn line(&self, i: usize) -> Line
        requires { i < length self.now.lines }
        ensures { slice_get self.now.lines i ≡ Some result }
    {
        self.lines.line(i)
    }
}
