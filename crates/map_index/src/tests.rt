use crate::IndexedMap;
use mdc_types::Geometry;
use std::test::Fail;

#[test]
fn chunks_of_other_blocks(rt: HostRuntime) -> Result<(), Fail> {
    let g = Geometry::new(2, 1024, 1)?;
    let mut map = IndexedMap::new(rt.alloc(), &g)?;
    assert!(rt; 1000 < map.map().chunks() && 0 < map.map().pages());
    map.set(700);
    map.set(701);
    map.need(300);
    assert_eq!(rt; map.first_set(), Some(700));
    assert_eq!(rt; map.first_set_from(702), None);
    assert_eq!(rt; map.first_needed(), Some(300));
    assert_eq!(rt; map.first_unmarked(0b11), Some((0, 0)));
    map.page_out(0, 0);
    map.page_out(0, 1);
    assert_eq!(rt; map.first_unmarked(0b11), None);
    map.clear(700);
    assert_eq!(rt; map.first_set(), Some(701));
    assert_eq!(rt; map.first_settled_from(0), Some(701));
    map.need(701);
    assert_eq!(rt; map.first_settled_from(0), None);
    map.settled(300);
    assert_eq!(rt; map.first_needed(), Some(701));
    Ok(())
}

#[test]
fn least_leg_of_a_page(rt: HostRuntime) -> Result<(), Fail> {
    let g = Geometry::new(3, 4096, 1)?;
    let mut map = IndexedMap::new(rt.alloc(), &g)?;
    assert!(rt; 4000 < map.map().chunks() && map.map().pages() == 2);
    // Chunk 10 lacks its mark on leg 2 alone, and the others of its page on more legs.
    map.set(10);
    map.page_out(0, 0);
    map.page_out(0, 1);
    map.set(3000);
    assert_eq!(rt; map.first_unmarked(0b111), Some((0, 2)));
    map.set(2000);
    assert_eq!(rt; map.first_unmarked(0b111), Some((0, 0)));
    map.page_out(0, 0);
    assert_eq!(rt; map.first_unmarked(0b111), Some((0, 1)));
    map.page_out(0, 1);
    map.page_out(0, 2);
    assert_eq!(rt; map.first_unmarked(0b110), Some((1, 1)));
    Ok(())
}
