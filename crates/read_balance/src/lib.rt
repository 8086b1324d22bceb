//! Which leg of the mirror a read goes to.
//!
//! Reads go to the leg whose head is nearest to the sector, as md's RAID-1 read balancing does.
#![tactic(auto)]

ghost use Rattle.std.specs.Prelude.{◌≡◌, ◌↔◌, ◌<◌, IfSome, IsNone, get_or};
ghost use Rattle.mdc_types.specs.Bits.{has_bit};
ghost use Rattle.read_balance.specs.Choice.{chosen_leg, least_leg, nearest_leg, nearer_leg};

use mdc_types::{LegId, SectorNo, has_leg};

/// The leg that a read of the sector goes to, or `None` where no leg works.
///
/// It is the working leg whose head is nearest to the sector, and of two as near the lower one. With
/// `first_only` it is the lowest working leg. `working` has one bit for each leg, and `heads` the
/// sector at which each leg's head stands.
pub fn choose(working: u8, heads: &[u32; 8], s: SectorNo, first_only: bool) -> Option<LegId>
    ensures chosen { result ≡ chosen_leg (λ l. has_bit working l) (λ l. get_or heads.now l 0) s first_only }
    ensures none { IsNone result ↔ (working ≡ 0) }
    ensures leg { IfSome result (λ l. l < 8) }
{
    if first_only {
        least_leg(working)
    } else {
        nearest_leg(working, heads, s)
    }
}

fn least_leg(working: u8) -> Option<LegId>
    ensures { result ≡ least_leg (λ l. has_bit working l) }
{
    for l in 0..8 {
        if has_leg(working, l) {
            return Some(l);
        }
    }
    None
}

fn nearest_leg(working: u8, heads: &[u32; 8], s: SectorNo) -> Option<LegId>
    ensures { result ≡ nearest_leg (λ l. has_bit working l) (λ l. get_or heads.now l 0) s }
{
    let mut nearest = None;
    for l in 0..8 {
        if has_leg(working, l) {
            nearest = Some(nearer_leg(heads, s, nearest, l));
        }
    }
    nearest
}

// Of two legs the one whose head is nearer to the sector, the first where both are as near.
fn nearer_leg(heads: &[u32; 8], s: SectorNo, nearest: Option<LegId>, l: LegId) -> LegId
    requires legs { IfSome nearest (λ k. k < 8) }
    requires leg { l < 8 }
    ensures { result ≡ nearer_leg (λ k. get_or heads.now k 0) s nearest l }
{
    match nearest {
        Some(k) if s.abs_diff(heads[k as usize]) <= s.abs_diff(heads[l as usize]) => k,
        _ => l,
    }
}

#[cfg(test)]
mod tests {
    use super::*;

    // The working legs, the sector, and the leg to be chosen, by nearness and with `first_only`.
    const CASES: [(u8, SectorNo, Option<LegId>, Option<LegId>); 8] = [
        (0b0000_0000, 60, None, None),
        (0b0000_0111, 60, Some(2), Some(0)),
        (0b0000_0011, 60, Some(0), Some(0)),
        (0b0000_0110, 20, Some(1), Some(1)),
        (0b1001_0000, 0, Some(4), Some(4)),
        (0b1000_0000, 0, Some(7), Some(7)),
        // Legs 0 and 3 are as near.
        (0b0000_1001, 150, Some(0), Some(0)),
        (0b1110_0000, 131_071, Some(5), Some(5)),
    ];

    #[test]
    fn chooses_a_leg(rt: HostRuntime) {
        let heads = [100, 0, 50, 200, 70, 131_000, 90_000, u32::MAX];
        for (working, s, nearest, first) in CASES {
            assert_eq!(rt; choose(working, &heads, s, false), nearest, "{working} {s}");
            assert_eq!(rt; choose(working, &heads, s, true), first, "{working} {s}");
        }
    }
}
