// What one node has of a recovery.
ghost use Rattle.std.specs.Prelude.{◌≡◌, ◌<◌, ℕ, false, length, get_or, None, Some, option_map, IfSome};
ghost use Rattle.mdc_types.specs.Bits.{has_bit};
ghost use Rattle.mdc_types.specs.Geometry.{Sizes, chunks_of, pages_of, slot_pages};
ghost use Rattle.slot_pages.specs.Slot.{page_has};
ghost use Rattle.node_recovery.specs.Progress.{begun, with_read, with_found, with_cleared, HasSize, pages_in, chunks_in};
ghost use Rattle.node_copies.specs.Recoveries.{recovery_of, first_unread, first_uncleared, page_unread, page_uncleared};

use crate::places::NodeRecovery;
use mdc_types::{Geometry, LegId, NodeId, PageNo, Sector};

pub fn slot_of(x: &NodeRecovery) -> Option<NodeId>
    ensures value { result ≡ option_map (λ r. r.slot) (recovery_of x.now) }
    ensures range { IfSome result (λ d. d < 16) }
{
    if x.begun {
        Some(x.recovery.slot())
    } else {
        None
    }
}

pub fn first_unread(g: &Geometry, x: &NodeRecovery, working: u8) -> Option<LegId>
    requires { pages_in x.now.recovery ≡ pages_of g.now }
    ensures { result ≡ first_unread g.now (recovery_of x.now) (has_bit working) }
{
    if x.begun {
        x.recovery.unread_leg(working)
    } else {
        None
    }
}

pub fn first_uncleared(g: &Geometry, x: &NodeRecovery, targets: u8) -> Option<LegId>
    requires { pages_in x.now.recovery ≡ pages_of g.now }
    ensures { result ≡ first_uncleared g.now (recovery_of x.now) (has_bit targets) }
{
    if x.begun {
        x.recovery.uncleared_leg(targets)
    } else {
        None
    }
}

pub fn unread(g: &Geometry, x: &NodeRecovery, working: u8) -> Option<(PageNo, LegId)>
    requires { pages_in x.now.recovery ≡ pages_of g.now }
    ensures { result ≡ page_unread g.now (recovery_of x.now) (has_bit working) }
{
    if x.begun {
        x.recovery.unread(working)
    } else {
        None
    }
}

pub fn uncleared(g: &Geometry, x: &NodeRecovery, targets: u8) -> Option<(PageNo, LegId)>
    requires { pages_in x.now.recovery ≡ pages_of g.now }
    ensures { result ≡ page_uncleared g.now (recovery_of x.now) (has_bit targets) }
{
    if x.begun {
        x.recovery.uncleared(targets)
    } else {
        None
    }
}

pub fn begin(x: &mut NodeRecovery, d: NodeId)
    requires { d < 16 }
    ensures recovery { recovery_of x.new ≡ Some (begun d) }
    ensures size { HasSize x.new.recovery (pages_in x.old.recovery) (chunks_in x.old.recovery) }
{
    x.recovery.again(d);
    x.begun = true;
}

#[tactic(auto, using(crate::proofs::PlaceLaws::mapped))]
pub fn note_page(g: &Geometry, x: &mut NodeRecovery, p: PageNo, page: &Sector, l: LegId)
    requires page { p < pages_of g.now }
    requires slot { p < slot_pages g.now }
    requires leg { l < 8 }
    requires size { HasSize x.old.recovery (pages_of g.now) (chunks_of g.now) }
    ensures recovery { recovery_of x.new
        ≡ option_map (λ r. with_found (with_read r p l) (page_has g.now p page.now.bytes))
        (recovery_of x.old) }
    ensures size { HasSize x.new.recovery (pages_of g.now) (chunks_of g.now) }
{
    x.recovery.slot_read(p, l);
    x.recovery.note_page(g, p, page);
}

#[tactic(auto, using(crate::proofs::PlaceLaws::mapped))]
pub fn cleared(x: &mut NodeRecovery, p: PageNo, l: LegId)
    requires page { p < pages_in x.old.recovery }
    requires leg { l < 8 }
    ensures recovery { recovery_of x.new ≡ option_map (λ r. with_cleared r p l)
        (recovery_of x.old) }
    ensures size { HasSize x.new.recovery (pages_in x.old.recovery) (chunks_in x.old.recovery) }
{
    x.recovery.slot_cleared(p, l);
}
