ghost use Rattle.std.specs.Prelude.{◌≡◌};
ghost use Rattle.std.specs.Option.{option_copied};
ghost use Rattle.script_text.specs.Lines.{words_after};
ghost use Rattle.script_text.specs.Header.{is_start, most_nodes, start_with, start_line, start_of, is_setup, room_line, spare_line, left_of, fits_left, fault_line, setup_line};

use crate::arguments::one_number;
use crate::lines::{four, third, three};
use crate::numbers::number_word;
use crate::script::geometry;
use crate::{FaultKind, FaultLine, Start};
use mdc_types::LegId;

/// What a line between the header and the others says.
#[derive(Clone, Copy)]
pub(crate) enum SetupLine {
    /// Each leg has room for so many sectors.
    Room(u32),
    /// The leg opens as a spare.
    Spare(LegId),
    /// A transfer of a leg fails.
    Fault(FaultLine),
}

fn most_nodes(second: bool) -> u8
    ensures { result ≡ most_nodes second }
{
    if second { 16 } else { 8 }
}

fn is_start(start: &Start) -> bool
    ensures { result ≡ is_start start.now }
{
    (1..=most_nodes(start.second)).contains(&start.nodes) && geometry(start).is_ok()
}

// The array of these numbers, if there is such an array.
fn start_with(
    warm: bool,
    second: bool,
    legs: u32,
    sectors: u32,
    chunk: u32,
    nodes: u32,
) -> Option<Start>
    ensures { result ≡ start_with warm second legs sectors chunk nodes }
{
    let start = Start {
        legs: u8::try_from(legs).ok()?,
        sectors,
        room: sectors,
        chunk,
        nodes: u8::try_from(nodes).ok()?,
        warm,
        second,
        spares: 0,
    };
    if !is_start(&start) {
        return None;
    }
    Some(start)
}

fn start_line(warm: bool, second: bool, args: Option<&str>) -> Result<Start, FaultKind>
    ensures { result ≡ start_line warm second (words_after (option_copied args.entry)) }
{
    let (legs, sectors, chunk, nodes) = four(args).ok_or(FaultKind::Count)?;
    let legs = number_word(legs)?;
    let sectors = number_word(sectors)?;
    let chunk = number_word(chunk)?;
    let nodes = number_word(nodes)?;
    start_with(warm, second, legs, sectors, chunk, nodes).ok_or(FaultKind::Range)
}

/// The array of the header of this first word and the words after it.
pub(crate) fn start(word: &str, args: Option<&str>) -> Result<Start, FaultKind>
    ensures { result ≡ start_of word.now (words_after (option_copied args.entry)) }
{
    match word {
        "warm" => start_line(true, false, args),
        "array" => start_line(false, false, args),
        "warm2" => start_line(true, true, args),
        "array2" => start_line(false, true, args),
        _ => Err(FaultKind::NoArray),
    }
}

/// Whether the line of this first word changes the setup. `first` says that none did before it.
pub(crate) fn is_setup(first: bool, word: &str) -> bool
    ensures { result ≡ is_setup first word.now }
{
    (first && word == "room") || word == "spare" || word == "fault"
}

fn room_line(start: &Start, args: Option<&str>) -> Result<SetupLine, FaultKind>
    ensures { result ≡ room_line start.now (words_after (option_copied args.entry)) }
{
    let room = one_number(args)?;
    if geometry(&Start { room, ..*start }).is_err() {
        return Err(FaultKind::Range);
    }
    Ok(SetupLine::Room(room))
}

fn spare_line(start: &Start, args: Option<&str>) -> Result<SetupLine, FaultKind>
    ensures { result ≡ spare_line start.now (words_after (option_copied args.entry)) }
{
    let leg = one_number(args)?;
    if leg == 0 || leg >= u32::from(start.legs) {
        return Err(FaultKind::Range);
    }
    Ok(SetupLine::Spare(leg as u8))
}

fn left(word: &str) -> Option<bool>
    ensures { result ≡ left_of word.now }
{
    match word {
        "new" => Some(true),
        "old" => Some(false),
        _ => None,
    }
}

// A word that is missing is told by the count.
fn fits_left(word: Option<&str>) -> bool
    ensures { result ≡ fits_left (option_copied word.entry) }
{
    match word {
        None => true,
        Some(word) => left(word).is_some(),
    }
}

fn fault_line(start: &Start, args: Option<&str>) -> Result<SetupLine, FaultKind>
    ensures { result ≡ fault_line start.now (words_after (option_copied args.entry)) }
{
    if !fits_left(third(args)) {
        return Err(FaultKind::Word);
    }
    let (leg, transfer, word) = three(args).ok_or(FaultKind::Count)?;
    let leg = number_word(leg)?;
    let transfer = number_word(transfer)?;
    let new = left(word).ok_or(FaultKind::Word)?;
    if leg >= u32::from(start.legs) {
        return Err(FaultKind::Range);
    }
    Ok(SetupLine::Fault(FaultLine {
        leg: leg as u8,
        transfer,
        new,
    }))
}

/// What a line of the setup says.
pub(crate) fn setup_line(
    start: &Start,
    word: &str,
    args: Option<&str>,
) -> Result<SetupLine, FaultKind>
    ensures { result ≡ setup_line start.now word.now (words_after (option_copied args.entry)) }
{
    match word {
        "room" => room_line(start, args),
        "spare" => spare_line(start, args),
        _ => fault_line(start, args),
    }
}
