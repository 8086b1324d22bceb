ghost use Rattle.std.specs.Prelude.{◌≡◌, ◌<◌};
ghost use Rattle.driver_rules.specs.Storms.{next_seed, drawn, turn_value};

use mdc_types::Sector;

/// The generator's next state.
pub fn next_seed(x: u64) -> u64
    ensures { result ≡ next_seed x }
{
    x.wrapping_mul(6364136223846793005)
        .wrapping_add(1442695040888963407)
}

/// The number below `m` that a state of the generator gives.
pub fn draw_below(x: u64, m: u32) -> u32
    requires { 0 < m }
    ensures value { result ≡ drawn x m }
    ensures below { result < m }
{
    ((x >> 33) % m as u64) as u32
}

/// The value that a write of turn `i` writes: the number in eight bytes, the lowest first.
pub fn turn_value(i: u32) -> Sector
    ensures { result ≡ turn_value i }
{
    let mut value = Sector::ZERO;
    value.bytes[0] = (i % 256) as u8;
    value.bytes[1] = (i / 256 % 256) as u8;
    value.bytes[2] = (i / 65_536 % 256) as u8;
    value.bytes[3] = (i / 16_777_216) as u8;
    value
}
