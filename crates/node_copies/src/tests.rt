use crate::{Additions, Copies, Recoveries};
use disk_addition::Addition;
use mdc_types::{Geometry, Range, Sector, Wish, Word};
use std::test::Fail;

#[test]
fn a_pass_of_one_node(rt: HostRuntime) -> Result<(), Fail> {
    let g = Geometry::new(2, 8, 4)?;
    let mut copies = Copies::new(rt.alloc(), &g)?;
    copies.ask(3);
    assert!(rt; matches!(copies.word(3), Word::Asked));
    copies.held(3);
    copies.begin_full(3, 0b10);
    copies.open_window(3, Some(Range { lo: 4, hi: 8 }));
    assert_eq!(rt; (copies.next(3), copies.next(4)), (Some(4), None));
    assert_eq!(rt; (copies.left(3), copies.has_copied(3, 1)), (Some(0), false));
    copies.end(3);
    assert!(rt; matches!(copies.word(3), Word::Nothing));
    Ok(())
}

#[test]
fn a_recovery_of_one_node(rt: HostRuntime) -> Result<(), Fail> {
    let g = Geometry::new(2, 8, 4)?;
    assert!(rt; 0 < g.pages() && 0 < g.slot_pages());
    let mut recoveries = Recoveries::new(rt.alloc(), &g)?;
    recoveries.begin(3, 5);
    assert_eq!(rt; (recoveries.slot(3), recoveries.slot(5)), (Some(5), None));
    recoveries.note_page(3, 0, &Sector::ZERO, 1);
    recoveries.slot_cleared(3, 0, 0);
    assert_eq!(rt; recoveries.unread_leg(3, 0b11), Some(0));
    assert_eq!(rt; recoveries.uncleared_leg(3, 0b11), Some(1));
    recoveries.close(3);
    assert_eq!(rt; recoveries.slot(3), None);
    Ok(())
}

#[test]
fn an_addition_of_one_node(rt: HostRuntime) -> Result<(), Fail> {
    let g = Geometry::new(2, 8, 4)?;
    let mut additions = Additions::new(rt.alloc(), &g)?;
    additions.after(3, &Wish::ReAdd(1));
    assert_eq!(rt; additions.addition(3), Addition::ReAdd(1));
    additions.after(3, &Wish::Rebuild(1));
    assert_eq!(rt; additions.addition(3), Addition::Again(1));
    assert_eq!(rt; additions.next(3), Some((0, 0)));
    additions.forget(3);
    assert_eq!(rt; additions.addition(3), Addition::Nothing);
    Ok(())
}
