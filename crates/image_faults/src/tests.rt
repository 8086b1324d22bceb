ghost use Rattle.std.specs.Prelude.{◌≡◌, ◌<◌, ◌≤◌, length};
ghost use Rattle.mdc_types.specs.Geometry.{chunks_of, data_offset, nodes_of};

use crate::{ImageFault, chunk_in, compare, length_fault, read_slot, size_fault, sizes_of};
use leg_store::{LegDev, MemLeg};
use md_superblock::Super;
use mdc_types::{ChunkSet, Failed, Geometry, NodeId, Role, Roles, Sector};
use slot_pages::write_page;
use std::test::Fail;

fn superblock() -> Super {
    let mut roles = [Role::Spare; 8];
    roles[0] = Role::Working;
    roles[1] = Role::Working;
    Super {
        geometry_legs: 2,
        sectors: 16,
        room: 16,
        version: 1,
        name: [0; 32],
        uuid: [7; 16],
        device: 0,
        events: 1,
        roles: Roles { legs: roles },
    }
}

#[test]
fn sizes(rt: HostRuntime) {
    let s = superblock();
    assert_eq!(rt; size_fault(None), Some(ImageFault::Missing));
    assert_eq!(rt; size_fault(Some(40_959)), Some(ImageFault::Short));
    assert_eq!(rt; size_fault(Some(40_960)), None);
    assert_eq!(rt; length_fault(&s, 49_151), Some(ImageFault::Short));
    assert_eq!(rt; length_fault(&s, 49_152), None);
    assert_eq!(rt; length_fault(&s, 49_153), Some(ImageFault::Long));
}

// The slot with its first page, which is read first.
fn whole_slot(leg: &mut MemLeg, g: &Geometry, k: NodeId, set: &mut ChunkSet) -> Result<bool, Failed>
    requires slot { k < nodes_of g.now }
    requires chunks { length set.old ≡ chunks_of g.now }
    requires size { data_offset g.now ≤ length leg.old.sectors }
    ensures chunks { length set.new ≡ length set.old }
    ensures size { length leg.new.sectors ≡ length leg.old.sectors }
{
    let first = leg.read(g.page_sector(k, 0))?;
    read_slot(leg, g, &[7; 16], k, &first, set)
}

#[test]
fn slots(rt: HostRuntime) -> Result<(), Fail> {
    let alloc = rt.alloc();
    let s = superblock();
    let g = sizes_of(&s, 4).ok().ok_or("sizes")?;
    let mut set = ChunkSet::new(alloc, g.chunks())?;
    let page = write_page(&g, &s.uuid, 0, &set);
    assert_eq!(rt; chunk_in(&page), 4);
    // Slot 3 is a page with a chunk, and seven pages of zeros.
    let mut sectors = vec![in alloc; Sector::ZERO; 96]?;
    assert!(rt; sectors.len() == 96);
    sectors[40] = page;
    sectors[40].bytes[256] = 0x02;
    let mut leg = MemLeg::new(sectors, Vec::new(alloc));
    assert!(rt; g.data_offset() <= leg.length() && 3 < g.nodes());
    assert_eq!(rt; whole_slot(&mut leg, &g, 3, &mut set), Ok(true));
    assert_eq!(rt; set.first_from(0), Some(1));
    // A bit in a page that isn't in use.
    assert!(rt; 47 < leg.length());
    let _ = leg.write(47, &Sector { bytes: [1; 512] });
    assert!(rt; g.data_offset() <= leg.length());
    assert_eq!(rt; whole_slot(&mut leg, &g, 3, &mut set), Ok(false));
    assert_eq!(rt; whole_slot(&mut leg, &g, 2, &mut set), Ok(false));
    Ok(())
}

#[test]
fn differences(rt: HostRuntime) {
    let mut a = [Sector::ZERO; 64];
    let b = [Sector::ZERO; 64];
    assert_eq!(rt; compare(&a, &b), None);
    a[5].bytes[511] = 1;
    a[9].bytes[0] = 1;
    assert_eq!(rt; compare(&a, &b), Some(5));
}
