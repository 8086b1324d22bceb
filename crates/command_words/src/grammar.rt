//! The words of the commands, as `clap` reads them.
ghost use Rattle.std.specs.Prelude.{◌≡◌, IfOk, false, map, option_map, true};
ghost use Rattle.std.specs.String.{string_bytes};
ghost use Rattle.std.specs.List.{list_all};
ghost use Rattle.clap.specs.Words.{App, app_of, first_of, found_of, is_simple_and_free, rows_of, rule_of};
ghost use Rattle.command_words.specs.InRows.{word_or};
ghost use Rattle.command_words.specs.Grammar.{is_plain, place, alone_app, show_app, play_app, upgrade_app, create_app, IsFound};

use crate::WordsEnd;
use clap::error::ErrorKind;
use clap::{Arg, ArgAction, ArgMatches, Command};
use std::alloc::{AllocError, Global};

fn is_plain(word: &str) -> bool
    ensures { result ≡ is_plain word.now }
{
    match word.as_bytes().first() {
        Some(byte) => *byte != b'-',
        None => true,
    }
}

/// None of the words begins with `-`: `clap` would read a flag there.
pub(crate) fn are_plain(words: &[String]) -> bool
    ensures { result ≡ list_all is_plain (map string_bytes words.now) }
{
    words.iter().all(|word| is_plain(word.as_str()))
}

fn place<'a>(alloc: Global, id: &'a str, required: bool) -> Arg<'a>
    ensures rule { rule_of result ≡ place id.now required }
    ensures local { result.global ≡ false }
{
    Arg::new(alloc, id)
        .required(required)
        .action(ArgAction::Set)
}

/// A word alone.
pub(crate) fn alone(alloc: Global, word: &str) -> Result<Command<'_>, AllocError>
    ensures { IfOk result (λ r. app_of r ≡ alone_app word.now) }
{
    Ok(Command::new(alloc, word))
}

/// `NAME`
pub(crate) fn show(alloc: Global, word: &str) -> Result<Command<'_>, AllocError>
    ensures { IfOk result (λ r. app_of r ≡ show_app word.now) }
{
    Command::new(alloc, word).arg(place(alloc, "NAME", true))
}

/// `[NAME]`
pub(crate) fn play(alloc: Global, word: &str) -> Result<Command<'_>, AllocError>
    ensures { IfOk result (λ r. app_of r ≡ play_app word.now) }
{
    Command::new(alloc, word).arg(place(alloc, "NAME", false))
}

/// `NAME TO`
pub(crate) fn upgrade(alloc: Global, word: &str) -> Result<Command<'_>, AllocError>
    ensures { IfOk result (λ r. app_of r ≡ upgrade_app word.now) }
{
    show(alloc, word)?.arg(place(alloc, "TO", true))
}

/// `NAME LEGS SECTORS CHUNK UUID [ROOM]`
pub(crate) fn create(alloc: Global, word: &str) -> Result<Command<'_>, AllocError>
    ensures { IfOk result (λ r. app_of r ≡ create_app word.now) }
{
    show(alloc, word)?
        .arg(place(alloc, "LEGS", true))?
        .arg(place(alloc, "SECTORS", true))?
        .arg(place(alloc, "CHUNK", true))?
        .arg(place(alloc, "UUID", true))?
        .arg(place(alloc, "ROOM", false))
}

/// What the command finds in the words. The first of them is its name.
pub(crate) fn found<'a>(
    command: Result<Command<'a>, AllocError>,
    words: &'a [String],
) -> Result<ArgMatches<'a>, WordsEnd>
    ensures { (app : App) → is_simple_and_free app ≡ true → IfOk command.entry (λ r. app_of r ≡ app)
        → IsFound app (map string_bytes words.now) result }
{
    match command {
        Ok(command) => match command.try_get_matches_from(words) {
            Ok(found) => Ok(found),
            Err(error) => match error.kind() {
                ErrorKind::OutOfMemory => Err(WordsEnd::Memory),
                _ => Err(WordsEnd::Usage),
            },
        },
        Err(_) => Err(WordsEnd::Memory),
    }
}

/// The word that was found for the argument.
pub(crate) fn word_in<'a>(found: &ArgMatches<'a>, id: &str) -> Option<&'a str>
    ensures { option_map (λ s. s.now) result ≡ first_of id.now (rows_of (found_of found.now)) }
{
    found.get_str(id)
}

/// The word that was found for the argument, or this other one.
pub(crate) fn word_or<'a>(found: &ArgMatches<'a>, id: &str, other: &'a str) -> &'a str
    ensures { result.now ≡ word_or (rows_of (found_of found.now)) id.now other.now }
{
    word_in(found, id).unwrap_or(other)
}
