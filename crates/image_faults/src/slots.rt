ghost use Rattle.std.specs.Prelude.{◌≡◌, ◌<◌, ◌≤◌, length, IfOk, Ok, true};
ghost use Rattle.mdc_types.specs.Faults.{HasCause};
ghost use Rattle.mdc_types.specs.Geometry.{chunks_of, data_offset, nodes_of, page_sector, slot_pages};
ghost use Rattle.leg_store.specs.Leg.{Gives};
ghost use Rattle.mdc_types.specs.Sectors.{IsSector};
ghost use Rattle.image_faults.specs.Slots.{JudgesSlot, AddsSlot, ArePages};

use leg_store::LegDev;
use mdc_types::{ChunkSet, Failed, Geometry, NodeId, PageNo, Sector};
use slot_pages::read_page;

fn length_of(bytes: &[u8; 512]) -> usize {
    bytes.len()
}

// The bytes of a sector are 512.
fn is_sector(bytes: &[u8; 512])
    ensures { IsSector bytes.now }
{
    length_of(bytes);
}

// Page `p` of slot `k`. The first was read before.
fn page_at<L: LegDev>(
    leg: &mut L,
    g: &Geometry,
    k: NodeId,
    p: PageNo,
    first: &Sector,
) -> Result<Sector, Failed>
    requires slot { k < nodes_of g.now }
    requires page { p < slot_pages g.now }
    requires size { data_offset g.now ≤ L.size leg.old }
    requires first { Gives (L.contents leg.old) (page_sector g.now k 0) first.now }
    ensures value { IfOk result (λ v. Gives (L.contents leg.old) (page_sector g.now k p) v) }
    ensures sector { IfOk result (λ v. IsSector v.bytes) }
    ensures contents { L.contents leg.new ≡ L.contents leg.old }
    ensures size { L.size leg.new ≡ L.size leg.old }
    ensures cause { HasCause (λ e. true) (L.faults leg.old) (L.faults leg.new) result }
{
    let page = if p == 0 {
        *first
    } else {
        leg.read(g.page_sector(k, p))?
    };
    is_sector(&page.bytes);
    Ok(page)
}

/// Reads the pages of slot `k` but the first, which was read, each once, also those that aren't in use.
/// It is true where all are as they have to be, and then their chunks are added to the set; it is
/// false at the first that isn't. `Failed` only where the leg's count of faults rose.
pub fn read_slot<L: LegDev>(
    leg: &mut L,
    g: &Geometry,
    uuid: &[u8; 16],
    k: NodeId,
    first: &Sector,
    set: &mut ChunkSet,
) -> Result<bool, Failed>
    requires slot { k < nodes_of g.now }
    requires chunks { length set.old ≡ chunks_of g.now }
    requires first { Gives (L.contents leg.old) (page_sector g.now k 0) first.now }
    requires size { data_offset g.now ≤ L.size leg.old }
    ensures judged { IfOk result (λ sound. JudgesSlot (L.contents leg.old) g.now uuid.now k sound) }
    ensures bits { result ≡ Ok true → AddsSlot (L.contents leg.old) g.now k set.old set.new }
    ensures sectors { result ≡ Ok true → ArePages (L.contents leg.old) g.now k (slot_pages g.now) }
    ensures chunks { length set.new ≡ length set.old }
    ensures contents { L.contents leg.new ≡ L.contents leg.old }
    ensures size { L.size leg.new ≡ L.size leg.old }
    ensures cause { HasCause (λ e. true) (L.faults leg.old) (L.faults leg.new) result }
{
    for p in 0..g.slot_pages() {
        let page = page_at(leg, g, k, p, first)?;
        if read_page(g, uuid, p, &page, set).is_err() {
            return Ok(false);
        }
    }
    Ok(true)
}
