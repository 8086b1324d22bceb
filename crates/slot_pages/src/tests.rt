ghost use Rattle.std.specs.Prelude.{◌≡◌, ◌<◌, length};
ghost use Rattle.mdc_types.specs.Geometry.{chunks_of, slot_pages};

use super::*;
use std::test::Fail;

const UUID: [u8; 16] = [
    0x10, 0x11, 0x12, 0x13, 0x14, 0x15, 0x16, 0x17, 0x18, 0x19, 0x1a, 0x1b, 0x1c, 0x1d, 0x1e, 0x1f,
];

// The fields of a header: 40 sectors of room, chunks of 4 sectors, eight nodes.
const HEADER: [u8; 76] = [
    0x62, 0x69, 0x74, 0x6d, 0x05, 0x00, 0x00, 0x00, 0x10, 0x11, 0x12, 0x13, 0x14, 0x15, 0x16, 0x17,
    0x18, 0x19, 0x1a, 0x1b, 0x1c, 0x1d, 0x1e, 0x1f, 0x00, 0x00, 0x00, 0x00, 0x00, 0x00, 0x00, 0x00,
    0x00, 0x00, 0x00, 0x00, 0x00, 0x00, 0x00, 0x00, 0x28, 0x00, 0x00, 0x00, 0x00, 0x00, 0x00, 0x00,
    0x00, 0x00, 0x00, 0x00, 0x00, 0x08, 0x00, 0x00, 0x00, 0x00, 0x00, 0x00, 0x00, 0x00, 0x00, 0x00,
    0x00, 0x00, 0x00, 0x00, 0x08, 0x00, 0x00, 0x00, 0x00, 0x00, 0x00, 0x00,
];

#[test]
fn page_in_hexadecimal(rt: HostRuntime) -> Result<(), Fail> {
    let g = Geometry::new(2, 40, 4)?;
    let mut set = ChunkSet::new(rt.alloc(), 10)?;
    assert_eq!(rt; (set.chunks(), g.chunks(), g.slot_pages()), (10, 10, 8));
    set.add(0);
    set.add(8);
    set.add(9);
    let page = write_page(&g, &UUID, 0, &set);
    assert_eq!(rt; &page.bytes[..76], HEADER.as_slice());
    assert_eq!(rt; &page.bytes[254..260], [0, 0, 0x01, 0x03, 0, 0].as_slice());
    Ok(())
}

// A chunk, and the page, byte and value of its bit.
const PLACES: [(ChunkNo, PageNo, usize, u8); 8] = [
    (0, 0, 256, 0x01),
    (2047, 0, 511, 0x80),
    (2048, 1, 0, 0x01),
    (6143, 1, 511, 0x80),
    (6144, 2, 0, 0x01),
    (30_719, 7, 511, 0x80),
    (30_720, 8, 0, 0x01),
    (63_487, 15, 511, 0x80),
];

// The page with this chunk's bit, which is read again.
fn page_with(g: &Geometry, set: &mut ChunkSet, c: ChunkNo, p: PageNo) -> Sector
    requires page { p < slot_pages g.now }
    requires chunks { length set.old ≡ chunks_of g.now }
    requires chunk { c < chunks_of g.now }
{
    set.clear();
    set.add(c);
    let page = write_page(g, &UUID, p, set);
    set.clear();
    page_bits(g, p, &page, set);
    page
}

#[test]
fn places_of_bits(rt: HostRuntime) -> Result<(), Fail> {
    let g = Geometry::second(2, 126_976, 126_976, 2)?;
    for (c, p, at, bit) in PLACES {
        let mut set = ChunkSet::new(rt.alloc(), g.chunks())?;
        assert!(rt; at < 512);
        assert!(rt; c < g.chunks());
        assert!(rt; p < g.slot_pages());
        let page = page_with(&g, &mut set, c, p);
        assert_eq!(rt; page.bytes[at], bit, "chunk {c}");
        assert_eq!(rt; set.first_from(0), Some(c));
        assert_eq!(rt; set.first_from(c + 1), None);
    }
    Ok(())
}

// A page, two of its bytes that are forged, and what is wrong then.
const FORGED: [(PageNo, (usize, u8), (usize, u8), SlotFault); 14] = [
    (0, (0, 0x63), (0, 0x63), SlotFault::Header(0)),
    (0, (4, 4), (4, 4), SlotFault::Header(4)),
    (0, (23, 0), (23, 0), SlotFault::Header(23)),
    (0, (40, 0x29), (40, 0x29), SlotFault::Header(40)),
    (0, (53, 4), (53, 4), SlotFault::Header(53)),
    (0, (68, 16), (68, 16), SlotFault::Header(68)),
    (0, (255, 1), (255, 1), SlotFault::Header(255)),
    (0, (257, 0x04), (257, 0x04), SlotFault::SpareBit(10)),
    (0, (511, 0x80), (511, 0x80), SlotFault::SpareBit(2047)),
    (1, (0, 0x01), (0, 0x01), SlotFault::SpareBit(2048)),
    (7, (511, 0x80), (511, 0x80), SlotFault::SpareBit(30_719)),
    // The first of two.
    (0, (255, 1), (257, 0x04), SlotFault::Header(255)),
    (0, (200, 1), (72, 1), SlotFault::Header(72)),
    (0, (258, 0x01), (257, 0x0c), SlotFault::SpareBit(10)),
];

#[test]
fn forged_pages(rt: HostRuntime) -> Result<(), Fail> {
    let g = Geometry::new(2, 40, 4)?;
    let mut set = ChunkSet::new(rt.alloc(), 10)?;
    assert_eq!(rt; (set.chunks(), g.chunks(), g.slot_pages()), (10, 10, 8));
    for (p, (a, x), (b, y), fault) in FORGED {
        assert!(rt; p < 8 && a < 512 && b < 512);
        assert_eq!(rt; set.chunks(), 10);
        let mut page = write_page(&g, &UUID, p, &set);
        page.bytes[a] = x;
        page.bytes[b] = y;
        assert_eq!(rt;
            read_page(&g, &UUID, p, &page, &mut set),
            Err(fault),
            "byte {a}"
        );
        assert_eq!(rt; set.first_from(0), None);
        page_bits(&g, p, &page, &mut set);
        assert_eq!(rt;
            set.first_from(0),
            None,
            "a look at the bits of chunks alone"
        );
    }
    Ok(())
}
