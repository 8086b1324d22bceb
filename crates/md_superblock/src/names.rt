ghost use Rattle.std.specs.Prelude.{◌≡◌, length, not, position};
ghost use Rattle.mdc_types.specs.Names.{is_name, is_name_byte, is_zero, name_length};

fn is_name_byte(b: u8) -> bool
    ensures { result ≡ is_name_byte b }
{
    b.is_ascii_alphanumeric() || b == b'_'
}

fn first_other(name: &[u8]) -> Option<usize>
    ensures { result ≡ position (λ b. not (is_name_byte b)) name.now }
{
    name.iter().position(|b| !is_name_byte(*b))
}

// How many letters, digits and `_` begin the name.
#[tactic(auto, unfolding(mdc_types::specs::Names::name_length))]
fn name_length(name: &[u8]) -> usize
    ensures { result ≡ name_length name.now }
{
    first_other(name).unwrap_or(name.len())
}

fn is_zero(bytes: &[u8]) -> bool
    ensures { result ≡ is_zero bytes.now }
{
    bytes.iter().all(|b| *b == 0)
}

/// Whether an array may have this name: 1 to 31 ASCII letters, digits or `_`, then zeros.
pub fn is_name(name: &[u8]) -> bool
    requires { length name.now ≡ 32 }
    ensures { result ≡ is_name name.now }
{
    let length = name_length(name);
    if length < 1 || 31 < length {
        return false;
    }
    is_zero(&name[length..])
}
