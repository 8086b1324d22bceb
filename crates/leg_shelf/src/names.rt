ghost use Rattle.std.specs.Prelude.{◌≡◌};
ghost use Rattle.std.specs.List.{list_all};
ghost use Rattle.leg_shelf.specs.Names.{begins_well, is_file_byte, is_file_name};

fn is_file_byte(b: u8) -> bool
    ensures { result ≡ is_file_byte b }
{
    b.is_ascii_alphanumeric() || b == b'_' || b == b'.'
}

fn begins_well(bytes: &[u8]) -> bool
    ensures { result ≡ begins_well bytes.now }
{
    match bytes {
        [] => false,
        [first, ..] => *first != b'.',
    }
}

fn has_file_bytes(bytes: &[u8]) -> bool
    ensures { result ≡ list_all is_file_byte bytes.now }
{
    bytes.iter().all(|b| is_file_byte(*b))
}

/// Whether a file of the folder may have this name: letters, digits, `_` and dots, the first no dot.
/// It then names nothing outside the folder.
pub fn is_file_name(name: &str) -> bool
    ensures { result ≡ is_file_name name.now }
{
    let bytes = name.as_bytes();
    begins_well(bytes) && has_file_bytes(bytes)
}
