// Pages that are done, as one byte for each page, with one bit for each leg.
ghost use Rattle.std.specs.Prelude.{◌≡◌, ◌<◌, ◌^◌, length, not, ◌&&◌};
ghost use Rattle.dlm_modes.specs.First.{first_such};
ghost use Rattle.mdc_types.specs.Bits.{has_bit};
ghost use Rattle.mdc_types.specs.Pages.{first_page_left, is_whole, leg_left, bits_of, with_page};

use crate::bits::{has_leg, with_leg};
use crate::{LegId, PageNo};

// The least leg of the set that isn't among those that are done.
fn leg_without(legs: u8, done: u8) -> Option<LegId>
    ensures { result ≡ first_such (λ l. has_bit legs l && not (has_bit done l)) 0 8 }
{
    for l in 0..8 {
        if has_leg(legs, l) && !has_leg(done, l) {
            return Some(l);
        }
    }
    None
}

/// The least page that a leg of the set is without, and the least such leg.
pub fn first_page_left(done: &[u8], legs: u8) -> Option<(PageNo, LegId)>
    requires { length done.now < 2 ^ 32 }
    ensures { result ≡ first_page_left (bits_of done.now) (has_bit legs) (length done.now) }
{
    for (p, bits) in done.iter().enumerate() {
        if let Some(l) = leg_without(legs, *bits) {
            return Some((p as PageNo, l));
        }
    }
    None
}

/// Whether each page is done on the leg.
pub fn is_whole(done: &[u8], l: LegId) -> bool
    requires { l < 8 }
    ensures { result ≡ is_whole (bits_of done.now) (length done.now) l }
{
    for bits in done {
        if !has_leg(*bits, l) {
            return false;
        }
    }
    true
}

/// The least leg of the set that is without a page.
pub fn leg_left(done: &[u8], legs: u8) -> Option<LegId>
    ensures { result ≡ leg_left (bits_of done.now) (has_bit legs) (length done.now) }
{
    for l in 0..8 {
        if has_leg(legs, l) && !is_whole(done, l) {
            return Some(l);
        }
    }
    None
}

/// The page is done on the leg.
pub fn mark_page(done: &mut [u8], p: PageNo, l: LegId)
    requires page { p < length done.old }
    requires leg { l < 8 }
    ensures { done.new ≡ with_page done.old p l }
{
    done[p as usize] = with_leg(done[p as usize], l);
}
