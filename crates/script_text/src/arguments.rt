// What follows the first word of a line.
ghost use Rattle.std.specs.Prelude.{◌≡◌};
ghost use Rattle.std.specs.Option.{option_copied};
ghost use Rattle.script_text.specs.Lines.{words_after};
ghost use Rattle.script_text.specs.Arguments.{res_of, mode_of, res_word, mode_word, fits_res, fits_mode, alone, one_byte, one_number, two_bytes, byte_number, two_numbers, byte_number_byte, one_res};

use crate::FaultKind;
use crate::lines::{first, one, three, two};
use crate::numbers::{byte_word, number_word};
use dlm_modes::Mode;
use mdc_types::Res;

fn res(word: &str) -> Option<Res>
    ensures { result ≡ res_of word.now }
{
    match word {
        "bitmap000" => Some(Res::Bitmap(0)),
        "bitmap001" => Some(Res::Bitmap(1)),
        "bitmap002" => Some(Res::Bitmap(2)),
        "bitmap003" => Some(Res::Bitmap(3)),
        "bitmap004" => Some(Res::Bitmap(4)),
        "bitmap005" => Some(Res::Bitmap(5)),
        "bitmap006" => Some(Res::Bitmap(6)),
        "bitmap007" => Some(Res::Bitmap(7)),
        "bitmap008" => Some(Res::Bitmap(8)),
        "bitmap009" => Some(Res::Bitmap(9)),
        "bitmap010" => Some(Res::Bitmap(10)),
        "bitmap011" => Some(Res::Bitmap(11)),
        "bitmap012" => Some(Res::Bitmap(12)),
        "bitmap013" => Some(Res::Bitmap(13)),
        "bitmap014" => Some(Res::Bitmap(14)),
        "bitmap015" => Some(Res::Bitmap(15)),
        "token" => Some(Res::Token),
        "message" => Some(Res::Message),
        "ack" => Some(Res::Ack),
        "no-new-dev" => Some(Res::NoNewDev),
        "resync" => Some(Res::Resync),
        _ => None,
    }
}

fn mode(word: &str) -> Option<Mode>
    ensures { result ≡ mode_of word.now }
{
    match word {
        "NL" => Some(Mode::NL),
        "CR" => Some(Mode::CR),
        "CW" => Some(Mode::CW),
        "PR" => Some(Mode::PR),
        "PW" => Some(Mode::PW),
        "EX" => Some(Mode::EX),
        _ => None,
    }
}

/// A word that is a resource.
pub(crate) fn res_word(word: &str) -> Result<Res, FaultKind>
    ensures { result ≡ res_word word.now }
{
    res(word).ok_or(FaultKind::Word)
}

/// A word that is a mode.
pub(crate) fn mode_word(word: &str) -> Result<Mode, FaultKind>
    ensures { result ≡ mode_word word.now }
{
    mode(word).ok_or(FaultKind::Word)
}

// A word that is missing is told by the count.

pub(crate) fn fits_res(word: Option<&str>) -> bool
    ensures { result ≡ fits_res (option_copied word.entry) }
{
    match word {
        None => true,
        Some(word) => res(word).is_some(),
    }
}

pub(crate) fn fits_mode(word: Option<&str>) -> bool
    ensures { result ≡ fits_mode (option_copied word.entry) }
{
    match word {
        None => true,
        Some(word) => mode(word).is_some(),
    }
}

/// What a line says whose first word stands alone.
pub(crate) fn alone<T: Copy>(x: T, args: Option<&str>) -> Result<T, FaultKind>
    ensures { result ≡ alone x (words_after (option_copied args.entry)) }
{
    if args.is_some() {
        return Err(FaultKind::Count);
    }
    Ok(x)
}

/// `N`
pub(crate) fn one_byte(args: Option<&str>) -> Result<u8, FaultKind>
    ensures { result ≡ one_byte (words_after (option_copied args.entry)) }
{
    byte_word(one(args).ok_or(FaultKind::Count)?)
}

/// `K`
pub(crate) fn one_number(args: Option<&str>) -> Result<u32, FaultKind>
    ensures { result ≡ one_number (words_after (option_copied args.entry)) }
{
    number_word(one(args).ok_or(FaultKind::Count)?)
}

/// `N L`
pub(crate) fn two_bytes(args: Option<&str>) -> Result<(u8, u8), FaultKind>
    ensures { result ≡ two_bytes (words_after (option_copied args.entry)) }
{
    let (a, b) = two(args).ok_or(FaultKind::Count)?;
    Ok((byte_word(a)?, byte_word(b)?))
}

/// `N K`
pub(crate) fn byte_number(args: Option<&str>) -> Result<(u8, u32), FaultKind>
    ensures { result ≡ byte_number (words_after (option_copied args.entry)) }
{
    let (a, b) = two(args).ok_or(FaultKind::Count)?;
    Ok((byte_word(a)?, number_word(b)?))
}

/// `K K`
pub(crate) fn two_numbers(args: Option<&str>) -> Result<(u32, u32), FaultKind>
    ensures { result ≡ two_numbers (words_after (option_copied args.entry)) }
{
    let (a, b) = two(args).ok_or(FaultKind::Count)?;
    Ok((number_word(a)?, number_word(b)?))
}

/// `N K L`
pub(crate) fn byte_number_byte(args: Option<&str>) -> Result<(u8, u32, u8), FaultKind>
    ensures { result ≡ byte_number_byte (words_after (option_copied args.entry)) }
{
    let (a, b, c) = three(args).ok_or(FaultKind::Count)?;
    Ok((byte_word(a)?, number_word(b)?, byte_word(c)?))
}

/// `RES`
pub(crate) fn one_res(args: Option<&str>) -> Result<Res, FaultKind>
    ensures { result ≡ one_res (words_after (option_copied args.entry)) }
{
    if !fits_res(first(args)) {
        return Err(FaultKind::Word);
    }
    res_word(one(args).ok_or(FaultKind::Count)?)
}
