ghost use Rattle.std.specs.Prelude.{⊤, ◌≡◌, ◌<◌, ℕ, ◌&&◌, ◌||◌, not, is_none, ◌∷◌, [], codes};
ghost use Rattle.mdc_types.specs.Bits.{has_bit, with_bit};
ghost use Rattle.leg_failure.specs.Sets.{least_of};

use bitflags::{Flag, Flags, bitflag_items};
use mdc_types::{LegId, with_leg};

/// A set of legs: leg l is bit l.
#[derive(Clone, Copy)]
pub struct Legs(pub u8);

bitflag_items! {
    impl Legs: u8 {
        const LEG_0 = 1;
        const LEG_1 = 2;
        const LEG_2 = 4;
        const LEG_3 = 8;
        const LEG_4 = 16;
        const LEG_5 = 32;
        const LEG_6 = 64;
        const LEG_7 = 128;
    }
}

impl Flags for Legs {
    type Bits = u8;

    ghost exact = { ⊤ };

    ghost table = { (codes "LEG_0", 1) ∷ (codes "LEG_1", 2) ∷ (codes "LEG_2", 4) ∷ (codes "LEG_3", 8) ∷ (codes "LEG_4", 16) ∷ (codes "LEG_5", 32) ∷ (codes "LEG_6", 64) ∷ (codes "LEG_7", 128) ∷ [] };

    ghost set_of = { λ legs. legs.0 };

    fn flags<'a>() -> &'a [Flag<Legs>] {
        Legs::FLAGS
    }

    fn bits(&self) -> u8 {
        self.0
    }

    fn from_bits_retain(bits: u8) -> Legs {
        Legs(bits)
    }
}

impl Legs {
    /// The set of just this leg.
    pub fn of(l: LegId) -> Legs
        requires { l < 8 }
        ensures { result.0 ≡ with_bit 0 l }
    {
        Legs(with_leg(0, l))
    }

    /// The legs that aren't in the other set.
    pub fn without(self, other: Legs) -> Legs
        ensures { (l : ℕ) → has_bit result.0 l ≡ (has_bit self.0 l && not (has_bit other.0 l)) }
    {
        self.difference(other)
    }

    /// The legs that are in both sets.
    pub fn both(self, other: Legs) -> Legs
        ensures { (l : ℕ) → has_bit result.0 l ≡ (has_bit self.0 l && has_bit other.0 l) }
    {
        self.intersection(other)
    }

    /// The legs that are in one of the sets.
    pub fn either(self, other: Legs) -> Legs
        ensures { (l : ℕ) → has_bit result.0 l ≡ (has_bit self.0 l || has_bit other.0 l) }
    {
        self.union(other)
    }

    /// Whether there is no leg.
    pub fn has_none(self) -> bool
        ensures { result ≡ is_none (least_of self.0) }
    {
        self.is_empty()
    }
}
