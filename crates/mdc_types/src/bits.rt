// Sets of legs in a byte and of nodes in two, one bit each, the lowest for number 0.
ghost use Rattle.std.specs.Prelude.{◌≡◌, ◌<◌, ℕ, ◌==◌, ◌&&◌, not};
ghost use Rattle.mdc_types.specs.Bits.{has_bit, with_bit};

use crate::{LegId, NodeId};

/// Whether the leg is in the set.
pub fn has_leg(set: u8, l: LegId) -> bool
    requires { l < 8 }
    ensures { result ≡ has_bit set l }
{
    (set >> l) & 1 == 1
}

/// The set with the leg in it.
pub fn with_leg(set: u8, l: LegId) -> u8
    requires { l < 8 }
    ensures { result ≡ with_bit set l }
{
    set | (1 << l)
}

/// The set without the leg.
pub fn without_leg(set: u8, l: LegId) -> u8
    requires { l < 8 }
    ensures { (k : ℕ) → k < 8 → has_bit result k ≡ (has_bit set k && not (k == l)) }
{
    set & !(1 << l)
}

/// Whether the node is in the set.
pub fn has_node(set: u16, n: NodeId) -> bool
    requires { n < 16 }
    ensures { result ≡ has_bit set n }
{
    (set >> n) & 1 == 1
}

/// The set with the node in it.
pub fn with_node(set: u16, n: NodeId) -> u16
    requires { n < 16 }
    ensures { result ≡ with_bit set n }
{
    set | (1 << n)
}

/// The set without the node.
pub fn without_node(set: u16, n: NodeId) -> u16
    requires { n < 16 }
    ensures { (k : ℕ) → k < 16 → has_bit result k ≡ (has_bit set k && not (k == n)) }
{
    set & !(1 << n)
}
