ghost use Rattle.std.specs.Prelude.{◌≡◌};
ghost use Rattle.dlm_modes.specs.Modes.{agrees, weaker, writes_value, reads_value, rank};

/// A lock mode, from the weakest on: null, concurrent read, concurrent write, protected read,
/// protected write, exclusive.
#[derive(Clone, Copy, PartialEq, Eq, Debug)]
pub enum Mode {
    NL,
    CR,
    CW,
    PR,
    PW,
    EX,
}

/// Whether two nodes may hold one resource in these modes at once.
pub fn agrees(a: Mode, b: Mode) -> bool
    ensures { result ≡ agrees a b }
{
    match a {
        Mode::NL => true,
        Mode::CR => !matches!(b, Mode::EX),
        Mode::CW => matches!(b, Mode::NL | Mode::CR | Mode::CW),
        Mode::PR => matches!(b, Mode::NL | Mode::CR | Mode::PR),
        Mode::PW => matches!(b, Mode::NL | Mode::CR),
        Mode::EX => matches!(b, Mode::NL),
    }
}

/// Whether a conversion from the first mode to the second may be taken at once, whoever else holds
/// the resource: the second agrees with each mode that the first agrees with.
pub fn weaker(from: Mode, to: Mode) -> bool
    ensures { result ≡ weaker from to }
{
    match from {
        Mode::NL => matches!(to, Mode::NL),
        Mode::CR => matches!(to, Mode::NL | Mode::CR),
        Mode::CW => matches!(to, Mode::NL | Mode::CR | Mode::CW),
        Mode::PR => matches!(to, Mode::NL | Mode::CR | Mode::PR),
        Mode::PW => !matches!(to, Mode::EX),
        Mode::EX => true,
    }
}

fn rank(mode: Mode) -> u8
    ensures { result ≡ rank mode }
{
    match mode {
        Mode::NL => 0,
        Mode::CR => 1,
        Mode::CW => 2,
        Mode::PR => 3,
        Mode::PW => 4,
        Mode::EX => 5,
    }
}

/// Whether a conversion between these modes writes the node's value to the block.
pub fn writes_value(from: Mode, to: Mode) -> bool
    ensures { result ≡ writes_value from to }
{
    match from {
        Mode::EX => true,
        Mode::PW => !matches!(to, Mode::EX),
        _ => false,
    }
}

/// Whether a conversion between these modes, or a grant where the first is NL, hands out the block.
pub fn reads_value(from: Mode, to: Mode) -> bool
    ensures { result ≡ reads_value from to }
{
    match from {
        Mode::EX => false,
        Mode::PW => matches!(to, Mode::EX),
        _ => rank(from) <= rank(to),
    }
}

#[cfg(test)]
mod tests {
    use super::*;

    const MODES: [Mode; 6] = [Mode::NL, Mode::CR, Mode::CW, Mode::PR, Mode::PW, Mode::EX];

    // One line a mode, with what stands for the six others in their order: whether they agree, whether
    // the conversion to them weakens, and what it does with the block (w: writes, r: reads).
    const TABLE: [(&str, &str, &str); 6] = [
        ("111111", "100000", "rrrrrr"),
        ("111110", "110000", "-rrrrr"),
        ("111000", "111000", "--rrrr"),
        ("110100", "110100", "---rrr"),
        ("110000", "111110", "wwwwwr"),
        ("100000", "111111", "wwwwww"),
    ];

    fn mark(writes: bool, reads: bool) -> u8 {
        match (writes, reads) {
            (true, false) => b'w',
            (false, true) => b'r',
            (false, false) => b'-',
            (true, true) => b'x',
        }
    }

    #[test]
    fn all_pairs(rt: HostRuntime) {
        for (a, (agree, weak, value)) in MODES.iter().zip(TABLE) {
            for (i, b) in MODES.iter().enumerate() {
                let cell = (
                    agree.as_bytes().get(i).copied(),
                    weak.as_bytes().get(i).copied(),
                    value.as_bytes().get(i).copied(),
                );
                assert_eq!(rt;
                    cell.0,
                    Some(if agrees(*a, *b) { b'1' } else { b'0' }),
                    "{a:?} {b:?}"
                );
                assert_eq!(rt;
                    cell.1,
                    Some(if weaker(*a, *b) { b'1' } else { b'0' }),
                    "{a:?} {b:?}"
                );
                let does = mark(writes_value(*a, *b), reads_value(*a, *b));
                assert_eq!(rt; cell.2, Some(does), "{a:?} {b:?}");
            }
        }
    }
}
