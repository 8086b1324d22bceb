// Sets of chunks, roles of legs, and checksums.
ghost use Rattle.std.specs.Prelude.{◌≡◌, ◌<◌, ◌++◌, map, take, false, get_or, length, IfOk, OnOk, string_bytes};
ghost use Rattle.std.specs.List.{flat_map};
ghost use Rattle.image_texts.specs.Sets.{members, after_comma, numbers_word, chunks_word, role_letter, roles_word, hex_digit, hex_byte, sum_word};

use mdc_types::{ChunkSet, Role, Roles};
use std::alloc::{AllocError, Global};
use std::fmt::Write;

fn chunks_in(alloc: Global, set: &ChunkSet) -> Result<Vec<u32>, AllocError>
    ensures { IfOk result (λ v. v.items ≡ members (λ c. get_or set.now c false) (length set.now)) }
{
    let mut chunks = Vec::new(alloc);
    for c in 0..set.chunks() {
        if set.has(c) {
            chunks.push(c)?;
        }
    }
    Ok(chunks)
}

fn push_after(text: &mut String, numbers: &[u32]) -> Result<(), AllocError>
    ensures { OnOk result
        (string_bytes text.new ≡ string_bytes text.old ++ flat_map after_comma numbers.now) }
{
    for n in numbers {
        write!(text, ",{n}")?;
    }
    Ok(())
}

fn push_numbers(text: &mut String, numbers: &[u32]) -> Result<(), AllocError>
    ensures { OnOk result
        (string_bytes text.new ≡ string_bytes text.old ++ numbers_word numbers.now) }
{
    match numbers.split_first() {
        None => text.push_str("-"),
        Some((first, rest)) => {
            write!(text, "{first}")?;
            push_after(text, rest)
        }
    }
}

/// Appends the chunks with commas between them, or a dash where there is none.
pub fn push_chunks(alloc: Global, text: &mut String, set: &ChunkSet) -> Result<(), AllocError>
    ensures { OnOk result
        (string_bytes text.new ≡ string_bytes text.old ++ chunks_word set.now) }
{
    let chunks = chunks_in(alloc, set)?;
    push_numbers(text, &chunks)
}

fn role_letter(role: Role) -> char
    ensures value { result ≡ role_letter role }
    ensures ascii { result < 128 }
{
    match role {
        Role::Working => 'W',
        Role::Rebuilding => 'R',
        Role::Faulty => 'F',
        Role::Spare => 'S',
    }
}

fn push_letters(text: &mut String, roles: &[Role]) -> Result<(), AllocError>
    ensures { OnOk result
        (string_bytes text.new ≡ string_bytes text.old ++ map role_letter roles.now) }
{
    for role in roles {
        text.push(role_letter(*role))?;
    }
    Ok(())
}

fn push_first(text: &mut String, roles: &[Role], count: usize) -> Result<(), AllocError>
    ensures { OnOk result
        (string_bytes text.new ≡ string_bytes text.old ++ map role_letter (take count roles.now)) }
{
    let shown = count.min(roles.len());
    push_letters(text, &roles[..shown])
}

/// Appends a letter for the role of each of the first legs, of which there are at most eight.
pub fn push_roles(text: &mut String, roles: &Roles, legs: u8) -> Result<(), AllocError>
    ensures { OnOk result
        (string_bytes text.new ≡ string_bytes text.old ++ roles_word roles.now legs) }
{
    push_first(text, &roles.legs, usize::from(legs))
}

fn hex_digit(d: u8) -> char
    requires { d < 16 }
    ensures value { result ≡ hex_digit d }
    ensures ascii { result < 128 }
{
    char::from(if d < 10 { b'0' + d } else { b'a' + (d - 10) })
}

fn push_byte(text: &mut String, byte: u8) -> Result<(), AllocError>
    ensures { OnOk result (string_bytes text.new ≡ string_bytes text.old ++ hex_byte byte) }
{
    text.push(hex_digit(byte / 16))?;
    text.push(hex_digit(byte % 16))
}

fn push_bytes(text: &mut String, bytes: &[u8]) -> Result<(), AllocError>
    ensures { OnOk result
        (string_bytes text.new ≡ string_bytes text.old ++ flat_map hex_byte bytes.now) }
{
    for byte in bytes {
        push_byte(text, *byte)?;
    }
    Ok(())
}

/// Appends the checksum in eight hexadecimal digits.
pub fn push_sum(text: &mut String, sum: u32) -> Result<(), AllocError>
    ensures { OnOk result (string_bytes text.new ≡ string_bytes text.old ++ sum_word sum) }
{
    push_bytes(text, &sum.to_be_bytes())
}
