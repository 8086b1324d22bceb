ghost use Rattle.std.specs.Prelude.{◌≡◌, drop, map, IfOk, IfSome, ok_or, true, false};
ghost use Rattle.std.specs.Option.{option_map};
ghost use Rattle.std.specs.List.{list_all};
ghost use Rattle.std.specs.String.{string_bytes};
ghost use Rattle.clap.specs.Words.{found_of, rows_of};
ghost use Rattle.command_words.specs.Grammar.{is_plain};
ghost use Rattle.command_words.specs.InRows.{create_in, show_in, play_in, upgrade_in};
ghost use Rattle.command_words.specs.Commands.{created_of, create_of, show_of, play_of, upgrade_of, locks_of, wire_of, command_with, value_of, SaysAs, IsRead, HasNames};
ghost use Rattle.command_words.specs.declared.command.WordsEnd.TheVariants.{Usage};

use crate::arrays::{geometry, uuid};
use crate::grammar::{are_plain, found, word_in, word_or};
use crate::names::array_name;
use crate::{Command, WordsEnd, grammar};
use clap::ArgMatches;
use std::alloc::Global;

fn created<'a>(
    second: bool,
    word: &'a str,
    legs: &str,
    sectors: &str,
    room: &str,
    chunk: &str,
    digits: &str,
) -> Option<Command<'a>>
    ensures value { option_map value_of result
        ≡ created_of second word.now legs.now sectors.now room.now chunk.now digits.now }
    ensures names { IfSome result HasNames }
{
    let name = array_name(word)?;
    let geometry = geometry(second, legs, sectors, room, chunk)?;
    let uuid = uuid(digits)?;
    Some(Command::Create {
        name,
        geometry,
        uuid,
    })
}

fn read_create<'a>(second: bool, found: &ArgMatches<'a>) -> Option<Command<'a>>
    ensures value { option_map value_of result ≡ create_in second (rows_of (found_of found.now)) }
    ensures names { IfSome result HasNames }
{
    let sectors = word_or(found, "SECTORS", "");
    created(
        second,
        word_or(found, "NAME", ""),
        word_or(found, "LEGS", ""),
        sectors,
        word_or(found, "ROOM", sectors),
        word_or(found, "CHUNK", ""),
        word_or(found, "UUID", ""),
    )
}

fn read_show<'a>(found: &ArgMatches<'a>) -> Option<Command<'a>>
    ensures value { option_map value_of result ≡ show_in (rows_of (found_of found.now)) }
    ensures names { IfSome result HasNames }
{
    let name = array_name(word_or(found, "NAME", ""))?;
    Some(Command::Show { name })
}

fn read_play<'a>(found: &ArgMatches<'a>) -> Option<Command<'a>>
    ensures value { option_map value_of result ≡ play_in (rows_of (found_of found.now)) }
    ensures names { IfSome result HasNames }
{
    let Some(word) = word_in(found, "NAME") else {
        return Some(Command::Play);
    };
    let name = array_name(word)?;
    Some(Command::PlayImages { name })
}

fn read_upgrade<'a>(found: &ArgMatches<'a>) -> Option<Command<'a>>
    ensures value { option_map value_of result ≡ upgrade_in (rows_of (found_of found.now)) }
    ensures names { IfSome result HasNames }
{
    let name = array_name(word_or(found, "NAME", ""))?;
    let to = array_name(word_or(found, "TO", ""))?;
    if name == to {
        return None;
    }
    Some(Command::Upgrade { name, to })
}

fn create<'a>(
    alloc: Global,
    second: bool,
    word: &'a str,
    words: &'a [String],
) -> Result<Command<'a>, WordsEnd>
    requires plain { list_all is_plain (drop 1 (map string_bytes words.now)) ≡ true }
    ensures value { SaysAs
        (ok_or (create_of second (drop 1 (map string_bytes words.now))) Usage) result }
    ensures names { IfOk result HasNames }
{
    match found(grammar::create(alloc, word), words) {
        Ok(found) => match read_create(second, &found) {
            Some(command) => Ok(command),
            None => Err(WordsEnd::Usage),
        },
        Err(end) => Err(end),
    }
}

fn show<'a>(alloc: Global, word: &'a str, words: &'a [String]) -> Result<Command<'a>, WordsEnd>
    requires plain { list_all is_plain (drop 1 (map string_bytes words.now)) ≡ true }
    ensures value { SaysAs (ok_or (show_of (drop 1 (map string_bytes words.now))) Usage) result }
    ensures names { IfOk result HasNames }
{
    match found(grammar::show(alloc, word), words) {
        Ok(found) => match read_show(&found) {
            Some(command) => Ok(command),
            None => Err(WordsEnd::Usage),
        },
        Err(end) => Err(end),
    }
}

fn play<'a>(alloc: Global, word: &'a str, words: &'a [String]) -> Result<Command<'a>, WordsEnd>
    requires plain { list_all is_plain (drop 1 (map string_bytes words.now)) ≡ true }
    ensures value { SaysAs (ok_or (play_of (drop 1 (map string_bytes words.now))) Usage) result }
    ensures names { IfOk result HasNames }
{
    match found(grammar::play(alloc, word), words) {
        Ok(found) => match read_play(&found) {
            Some(command) => Ok(command),
            None => Err(WordsEnd::Usage),
        },
        Err(end) => Err(end),
    }
}

fn upgrade<'a>(alloc: Global, word: &'a str, words: &'a [String]) -> Result<Command<'a>, WordsEnd>
    requires plain { list_all is_plain (drop 1 (map string_bytes words.now)) ≡ true }
    ensures value { SaysAs (ok_or (upgrade_of (drop 1 (map string_bytes words.now))) Usage) result }
    ensures names { IfOk result HasNames }
{
    match found(grammar::upgrade(alloc, word), words) {
        Ok(found) => match read_upgrade(&found) {
            Some(command) => Ok(command),
            None => Err(WordsEnd::Usage),
        },
        Err(end) => Err(end),
    }
}

fn locks<'a>(alloc: Global, word: &'a str, words: &'a [String]) -> Result<Command<'a>, WordsEnd>
    requires plain { list_all is_plain (drop 1 (map string_bytes words.now)) ≡ true }
    ensures value { SaysAs (ok_or (locks_of (drop 1 (map string_bytes words.now))) Usage) result }
    ensures names { IfOk result HasNames }
{
    match found(grammar::alone(alloc, word), words) {
        Ok(_) => Ok(Command::Locks),
        Err(end) => Err(end),
    }
}

fn wire<'a>(alloc: Global, word: &'a str, words: &'a [String]) -> Result<Command<'a>, WordsEnd>
    requires plain { list_all is_plain (drop 1 (map string_bytes words.now)) ≡ true }
    ensures value { SaysAs (ok_or (wire_of (drop 1 (map string_bytes words.now))) Usage) result }
    ensures names { IfOk result HasNames }
{
    match found(grammar::alone(alloc, word), words) {
        Ok(_) => Ok(Command::Wire),
        Err(end) => Err(end),
    }
}

// The command of this first word: the words are it and the others.
fn command<'a>(alloc: Global, word: &'a str, words: &'a [String]) -> Result<Command<'a>, WordsEnd>
    requires plain { list_all is_plain (drop 1 (map string_bytes words.now)) ≡ true }
    ensures value { SaysAs
        (ok_or (command_with word.now (drop 1 (map string_bytes words.now))) Usage) result }
    ensures names { IfOk result HasNames }
{
    match word {
        "create" => create(alloc, false, word, words),
        "create2" => create(alloc, true, word, words),
        "show" => show(alloc, word, words),
        "play" => play(alloc, word, words),
        "upgrade" => upgrade(alloc, word, words),
        "locks" => locks(alloc, word, words),
        "wire" => wire(alloc, word, words),
        _ => Err(WordsEnd::Usage),
    }
}

/// The command of the program's words.
pub fn read_words<'a>(alloc: Global, words: &'a [String]) -> Result<Command<'a>, WordsEnd>
    // Unless memory was wanting, it is this command, with the bytes of its names.
    ensures value { IsRead (map string_bytes words.now) result }

    // Its names are names of arrays, in superblocks too.
    ensures names { IfOk result HasNames }
{
    let Some((word, args)) = words.split_first() else {
        return Err(WordsEnd::Usage);
    };
    // `clap` would take it for a flag, and answer with its help or its version.
    if !are_plain(args) {
        return Err(WordsEnd::Usage);
    }
    command(alloc, word.as_str(), words)
}
