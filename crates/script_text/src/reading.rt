ghost use Rattle.std.specs.Prelude.{◌≡◌, ℕ, ◌+◌, ◌<◌, ◌≤◌, List, true, false, is_ok, length, IfOk, Result, if◌then◌else◌};
ghost use Rattle.std.specs.List.{AllByRecursion};
ghost use Rattle.std.specs.Option.{option_copied};
ghost use Rattle.mdc_types.specs.Bits.{has_bit};
ghost use Rattle.script_text.specs.declared.faults.FaultKind.{FaultKind};
ghost use Rattle.script_text.specs.Lines.{words_after, input_part, script_limit};
ghost use Rattle.script_text.specs.Images.{images_of, images_fault_of};
ghost use Rattle.script_text.specs.Locks.{lock_script_of, lock_fault_of};
ghost use Rattle.script_text.specs.Wire.{wire_script_of, wire_fault_of};
ghost use Rattle.script_text.specs.Header.{start_sizes, most_nodes};
ghost use Rattle.script_text.specs.Script.{Reads, new_setup, script_of, fault_of, words_said};
ghost use Rattle.script_text.specs.Places.{line_at, lines_at, AreLines};
ghost use Rattle.script_text.specs.Reading.{words_read, ReadsLine, ReadsStart, ReadsSetup, ReadsPlaces, setup_at, body_at};

use crate::arguments::alone;
use crate::faults::at_line;
use crate::header::{SetupLine, is_setup, setup_line, start};
use crate::lines::{split_line, split_word};
use crate::{FaultKind, FaultLine, Line, Script, ScriptEnd, ScriptFault, ScriptLines, Start};
use mdc_types::with_leg;
use std::alloc::{AllocError, Global};

/// The most bytes that a script holds, up to the line feed of its line `end`.
pub(crate) const SCRIPT_LIMIT: usize = 16_777_216;

/// What a line says: its first word and the words after it, or nothing where it is skipped.
pub(crate) type Said<'a> = Option<(&'a str, Option<&'a str>)>;

fn said(text: &str) -> Said<'_>
    ensures { words_read result ≡ words_said text.now }
{
    if text.is_empty() || text.starts_with('#') {
        return None;
    }
    Some(split_word(text))
}

/// What the line that begins at `at` says, and where the next begins.
pub(crate) fn next_line(bytes: &[u8], at: usize) -> Result<(Said<'_>, usize), FaultKind>
    requires { at < length bytes.now }
    ensures { ReadsLine bytes.now at result }
{
    let (_, rest) = bytes.split_at(at);
    let (text, len) = split_line(rest);
    if len > SCRIPT_LIMIT.saturating_sub(at) {
        return Err(FaultKind::Long);
    }
    let Ok(text) = str::from_utf8(text) else {
        return Err(FaultKind::Utf8);
    };
    Ok((said(text), at + len))
}

/// What stands in the lines of a script, after its header if it has one.
pub(crate) trait ScriptLine {
    /// What a line's first word and the words after it are.
    ghost says: { List ℕ → List (List ℕ) → Result Self FaultKind };

    /// The line of this first word and the words after it.
    fn of_words(word: &str, args: Option<&str>) -> Result<Self, FaultKind>
        ensures { result ≡ says word.now (words_after (option_copied args.entry)) };
}

/// The line that begins at `at`, if one does.
pub(crate) fn line_at<L: ScriptLine>(bytes: &[u8], at: u32) -> Option<L>
    ensures { result ≡ line_at L.says bytes.now at }
{
    let at = at as usize;
    if at >= bytes.len() {
        return None;
    }
    match next_line(bytes, at) {
        Ok((Some((word, args)), _)) => L::of_words(word, args).ok(),
        _ => None,
    }
}

// The array of the header, where the line after it begins, and that line's number.
fn read_start(bytes: &[u8]) -> Result<(Start, usize, u32), ScriptFault>
    ensures found { ReadsStart bytes.now result }
    ensures legs { IfOk result (λ x. x.0.legs ≤ 8) }
    ensures few { IfOk result (λ x. (x.2 ≤ x.1 + 1) × (x.1 ≤ script_limit)) }
{
    let mut at = 0;
    let mut line = 1;
    while at < bytes.len() {
        let (said, next) = at_line(line, next_line(bytes, at))?;
        if let Some((word, args)) = said {
            let start = at_line(line, start(word, args))?;
            return Ok((start, next, line + 1));
        }
        at = next;
        line += 1;
    }
    Err(ScriptFault {
        line,
        kind: FaultKind::NoArray,
    })
}

// The array with the lines of the setup that follow the header, the transfers that fail, where the
// line after them begins, and that line's number.
fn read_setup(
    alloc: Global,
    bytes: &[u8],
    start: Start,
    at: usize,
    line: u32,
) -> Result<(Start, Vec<FaultLine>, usize, u32), ScriptEnd>
    requires few { line ≤ at + 1 }
    requires room { at ≤ script_limit }
    requires legs { start.legs ≤ 8 }
    ensures found { ReadsSetup bytes.now (setup_at bytes.now (new_setup start) at line) result }
    ensures few { IfOk result (λ x. (x.3 ≤ x.2 + 1) × (x.2 ≤ script_limit)) }
{
    let mut start = start;
    let mut faults = Vec::new(alloc);
    let mut at = at;
    let mut line = line;
    let mut first = true;
    while at < bytes.len() {
        let (said, next) = match next_line(bytes, at) {
            Ok(found) => found,
            // The fault is told as one of the lines that follow.
            Err(_) => return Ok((start, faults, at, line)),
        };
        if let Some((word, args)) = said {
            if !is_setup(first, word) {
                return Ok((start, faults, at, line));
            }
            match at_line(line, setup_line(&start, word, args))? {
                SetupLine::Room(room) => start.room = room,
                SetupLine::Spare(leg) => start.spares = with_leg(start.spares, leg),
                SetupLine::Fault(fault) => faults.push(fault)?,
            }
            first = false;
        }
        at = next;
        line += 1;
    }
    Ok((start, faults, at, line))
}

/// Where the lines begin from `at` on, where the line of this number does, up to the line `end`.
pub(crate) fn read_places<L: ScriptLine + Drop>(
    alloc: Global,
    bytes: &[u8],
    at: usize,
    line: u32,
) -> Result<Vec<u32>, ScriptEnd>
    requires few { line ≤ at + 1 }
    requires room { at ≤ script_limit }
    ensures { ReadsPlaces L.says bytes.now (body_at L.says bytes.now at line) result }
{
    let mut places = Vec::new(alloc);
    let mut at = at;
    let mut line = line;
    while at < bytes.len() {
        let (said, next) = at_line(line, next_line(bytes, at))?;
        if let Some((word, args)) = said {
            if word == "end" {
                at_line(line, alone((), args))?;
                return Ok(places);
            }
            at_line(line, L::of_words(word, args))?;
            places.push(at as u32)?;
        }
        at = next;
        line += 1;
    }
    Err(ScriptEnd::Fault(ScriptFault {
        line,
        kind: FaultKind::NoEnd,
    }))
}

/// The lines at these places.
pub(crate) fn lines_at<L: ScriptLine + Drop>(
    alloc: Global,
    bytes: &[u8],
    places: &[u32],
) -> Result<Vec<L>, AllocError>
    requires { AreLines L.says bytes.now places.now }
    ensures { IfOk result (λ lines. lines.items ≡ lines_at L.says bytes.now places.now) }
{
    let mut lines = Vec::with_capacity(alloc, places.len())?;
    for at in places {
        match line_at::<L>(bytes, *at) {
            Some(line) => lines.push(line)?,
            None => unreachable!(),
        }
    }
    Ok(lines)
}

/// Reads a script. What follows its line `end` isn't judged.
pub fn read_script(alloc: Global, bytes: &[u8]) -> Result<Script<'_>, ScriptEnd>
    // It is this script, or the bytes have this fault, or memory is wanting.
    ensures reads { Reads result bytes.now }

    // What is read is an array of 1 to 8 nodes, of image version 2 up to 16.
    ensures array { IfOk result (λ s. is_ok (start_sizes s.start) ≡ true) }
    ensures some_node { IfOk result (λ s. 1 ≤ s.start.nodes) }
    ensures nodes { IfOk result (λ s. s.start.nodes ≤ most_nodes s.start.second) }

    // Spares and failing transfers are those of its legs, and leg 0 is no spare.
    ensures leg_0 { IfOk result (λ s. has_bit s.start.spares 0 ≡ false) }
    ensures spares { IfOk result (λ s. (l : ℕ) →
        has_bit s.start.spares l ≡ true → l < s.start.legs) }
    ensures faults { IfOk result (λ s. AllByRecursion (λ f. f.leg < s.start.legs) s.faults) }
{
    let (start, at, line) = read_start(bytes)?;
    let (start, faults, at, line) = read_setup(alloc, bytes, start, at, line)?;
    let places = read_places::<Line>(alloc, bytes, at, line)?;
    Ok(Script {
        start,
        faults,
        lines: ScriptLines { bytes, places },
    })
}

/// A law: what [`read_input`](crate::read_input) takes of an input is judged as all of it would be. It
/// is the same script, and has the same fault, and so it is as a script of images, as a lock script and
/// as a wire script.
pub fn part_is_judged_as_all()
    ensures script { (bytes : List ℕ) → script_of (input_part bytes) ≡ script_of bytes }
    ensures fault { (bytes : List ℕ) → fault_of (input_part bytes) ≡ fault_of bytes }
    ensures images { (bytes : List ℕ) → images_of (input_part bytes) ≡ images_of bytes }
    ensures images_fault { (bytes : List ℕ) →
        images_fault_of (input_part bytes) ≡ images_fault_of bytes }
    ensures lock_script { (bytes : List ℕ) →
        lock_script_of (input_part bytes) ≡ lock_script_of bytes }
    ensures lock_fault { (bytes : List ℕ) →
        lock_fault_of (input_part bytes) ≡ lock_fault_of bytes }
    ensures wire_script { (bytes : List ℕ) →
        wire_script_of (input_part bytes) ≡ wire_script_of bytes }
    ensures wire_fault { (bytes : List ℕ) →
        wire_fault_of (input_part bytes) ≡ wire_fault_of bytes }
{}
