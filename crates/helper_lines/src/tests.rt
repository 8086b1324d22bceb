use crate::begins::slot_to_begin;
use crate::looks::{is_just_held, needs_copying, rebuilds, some_pending};
use crate::pages::{old, unmarked};
use mdc_types::Geometry;
use std::test::Fail;
use world_openings::{Opening, open_state};

#[test]
fn members_at_the_start(rt: HostRuntime) -> Result<(), Fail> {
    let geometry = Geometry::new(2, 16, 4)?;
    let opening = Opening::header(rt.alloc(), geometry, 2, true, 0)?;
    let core = open_state(rt.alloc(), &opening)?;
    assert!(rt; 2 < core.identity.geometry.nodes());
    for n in 0..2 {
        assert_eq!(rt; unmarked(&core, n), None, "marks of node {n}");
        assert_eq!(rt; old(&core, n), None, "pages of node {n}");
        assert!(rt; !needs_copying(&core, n) && !is_just_held(&core, n) && !rebuilds(&core, n));
    }
    assert!(rt; !some_pending(&core));
    assert_eq!(rt; slot_to_begin(&core), None);
    Ok(())
}
