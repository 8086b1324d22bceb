ghost use Rattle.std.specs.Prelude.{◌≡◌, ◌<◌, ◌+◌, ◌≤◌, ◌∷◌, [], length, string_bytes, IfOk};
ghost use Rattle.disk_image.specs.Files.{leg_name, name_field};

use mdc_types::LegId;
use std::alloc::{AllocError, Global};

fn ending(l: LegId) -> &'static str
    requires { l < 8 }
    ensures { result.now ≡ 46 ∷ (48 + l) ∷ [] }
{
    match l {
        0 => ".0",
        1 => ".1",
        2 => ".2",
        3 => ".3",
        4 => ".4",
        5 => ".5",
        6 => ".6",
        _ => ".7",
    }
}

/// The name of leg `l`'s file: that of the array, a dot, and the leg.
pub fn leg_name(alloc: Global, name: &str, l: LegId) -> Result<String, AllocError>
    requires { l < 8 }
    ensures { IfOk result (λ file. string_bytes file ≡ leg_name name.now l) }
{
    let mut file = String::from_str(alloc, name)?;
    file.push_str(ending(l))?;
    Ok(file)
}

/// The array's name as superblocks have it: 32 bytes, zeros at the end.
pub fn name_field(name: &str) -> [u8; 32]
    requires { length name.now ≤ 32 }
    ensures { result ≡ name_field name.now }
{
    let bytes = name.as_bytes();
    let mut field = [0; 32];
    field[..bytes.len()].copy_from_slice(bytes);
    field
}
