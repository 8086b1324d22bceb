// The value of a sector, in hexadecimal.
ghost use Rattle.std.specs.Prelude.{◌≡◌, ◌<◌, ◌++◌, OnOk, string_bytes};
ghost use Rattle.std.specs.List.{flat_map};
ghost use Rattle.report_text.specs.Values.{trimmed, hex_digit, hex_byte, hex_or_dash, value_text};

use std::alloc::AllocError;

fn trimmed(bytes: &[u8]) -> &[u8]
    ensures { result.now ≡ trimmed bytes.now }
{
    let mut kept = bytes;
    while let Some((0, front)) = kept.split_last() {
        kept = front;
    }
    kept
}

fn hex_digit(d: u8) -> char
    requires { d < 16 }
    ensures value { result ≡ hex_digit d }
    ensures ascii { result < 128 }
{
    char::from(if d < 10 { b'0' + d } else { b'a' + (d - 10) })
}

fn push_byte(text: &mut String, byte: u8) -> Result<(), AllocError>
    ensures { OnOk result (string_bytes text.new ≡ string_bytes text.old ++ hex_byte byte) }
{
    text.push(hex_digit(byte / 16))?;
    text.push(hex_digit(byte % 16))
}

fn push_bytes(text: &mut String, bytes: &[u8]) -> Result<(), AllocError>
    ensures { OnOk result (string_bytes text.new ≡ string_bytes text.old ++ flat_map hex_byte bytes.now) }
{
    text.reserve(2 * bytes.len())?;
    for byte in bytes {
        push_byte(text, *byte)?;
    }
    Ok(())
}

/// Appends the bytes up to the last that isn't zero, or a dash where all are zero.
pub fn push_value(text: &mut String, bytes: &[u8]) -> Result<(), AllocError>
    ensures { OnOk result (string_bytes text.new ≡ string_bytes text.old ++ value_text bytes.now) }
{
    match trimmed(bytes) {
        [] => text.push_str("-"),
        kept => push_bytes(text, kept),
    }
}
