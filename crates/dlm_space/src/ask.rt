ghost use Rattle.std.specs.Prelude.{◌≡◌};
ghost use Rattle.dlm_modes.specs.declared.mode.Mode.TheVariants.{NL};

use dlm_modes::Mode;

/// A node, which is below 16, and the mode for which it asks.
#[derive(Clone, Copy, PartialEq, Eq, Debug)]
pub struct Ask {
    pub node: u8,
    pub mode: Mode,
}

impl Default for Ask {
    ghost is_default = { λ a. a ≡ record { node = 0; mode = NL } };

    fn default() -> Ask {
        Ask {
            node: 0,
            mode: Mode::NL,
        }
    }
}
