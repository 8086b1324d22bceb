ghost use Rattle.std.specs.Prelude.{◌≡◌, [], ◌*◌, ◌/◌, ◌%◌, ◌<◌, ◌≤◌, length, take, drop, Some, None, IfSome, OnSome, MatchOption};
ghost use Rattle.std.specs.Option.{option_map};
ghost use Rattle.script_text.specs.Arguments.{number_word, byte_word, value_word};
ghost use Rattle.script_text.specs.Numbers.{number_of, byte_of, hex_digit, hex_bytes, sector_of, value_of};

use crate::FaultKind;
use mdc_types::Sector;

// Of a value.
const MAX_DIGITS: usize = 1024;

/// The number that the word writes: decimal digits without leading zeros, and no sign. `None` where it
/// writes none, or one of more than 32 bits.
pub fn number(word: &str) -> Option<u32>
    ensures { result ≡ number_of word.now }
{
    if word.starts_with('+') {
        return None;
    }
    if word.starts_with('0') && word.len() > 1 {
        return None;
    }
    word.parse().ok()
}

/// The number of 8 bits that the word writes, as that of a node or a leg. `None` where it writes none.
pub fn byte(word: &str) -> Option<u8>
    ensures { result ≡ byte_of word.now }
{
    u8::try_from(number(word)?).ok()
}

fn hex_digit(digit: u8) -> Option<u8>
    ensures value { result ≡ hex_digit digit }
    ensures small { IfSome result (λ d. d < 16) }
{
    match digit {
        b'0'..=b'9' => Some(digit - b'0'),
        b'a'..=b'f' => Some(digit - b'a' + 10),
        _ => None,
    }
}

/// Puts the bytes that the digits write at the front, two digits `0` to `9` or `a` to `f` for each, the
/// high one first. The other bytes stay. `None` where one is no such digit.
pub fn put_hex(bytes: &mut [u8], digits: &[u8]) -> Option<()>
    requires even { length digits.now % 2 ≡ 0 }
    requires room { length digits.now ≤ 2 * length bytes.old }
    ensures value { MatchOption result (hex_bytes digits.now ≡ None) (λ _. hex_bytes digits.now ≡ Some (take (length digits.now / 2) bytes.new)) }
    ensures rest { OnSome result (drop (length digits.now / 2) bytes.new ≡ drop (length digits.now / 2) bytes.old) }
{
    for i in 0..digits.len() / 2 {
        let high = hex_digit(digits[2 * i])?;
        let low = hex_digit(digits[2 * i + 1])?;
        bytes[i] = 16 * high + low;
    }
    Some(())
}

fn zero_sector() -> Sector
    ensures { result ≡ sector_of [] }
{
    Sector::ZERO
}

// The sector whose first bytes the digits write.
fn hex_sector(digits: &[u8]) -> Option<Sector>
    requires even { length digits.now % 2 ≡ 0 }
    requires room { length digits.now ≤ 1024 }
    ensures { result ≡ option_map sector_of (hex_bytes digits.now) }
{
    let mut sector = zero_sector();
    put_hex(&mut sector.bytes, digits)?;
    Some(sector)
}

// What a sector is to hold: `-`, or lower-case hexadecimal digits, two for each byte from the first on.
// The other bytes are zero.
fn value(word: &str) -> Option<Sector>
    ensures { result ≡ value_of word.now }
{
    if word == "-" {
        return Some(zero_sector());
    }
    let digits = word.as_bytes();
    if digits.len() < 2 || digits.len() > MAX_DIGITS || digits.len() % 2 != 0 {
        return None;
    }
    hex_sector(digits)
}

/// A word that is a number.
pub(crate) fn number_word(word: &str) -> Result<u32, FaultKind>
    ensures { result ≡ number_word word.now }
{
    number(word).ok_or(FaultKind::Number)
}

/// A word that is the number of a node or a leg.
pub(crate) fn byte_word(word: &str) -> Result<u8, FaultKind>
    ensures { result ≡ byte_word word.now }
{
    byte(word).ok_or(FaultKind::Number)
}

/// A word that is a value.
pub(crate) fn value_word(word: &str) -> Result<Sector, FaultKind>
    ensures { result ≡ value_word word.now }
{
    value(word).ok_or(FaultKind::Value)
}
