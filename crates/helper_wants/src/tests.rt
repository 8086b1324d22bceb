use crate::{is_least_member, want};
use mdc_types::{Geometry, NodeState, Wish};
use std::test::Fail;
use world_openings::{Opening, open_state};

#[test]
fn a_spare_leg_and_a_loaded_node(rt: HostRuntime) -> Result<(), Fail> {
    let geometry = Geometry::new(3, 16, 4)?;
    let opening = Opening::header(rt.alloc(), geometry, 2, true, 0b100)?;
    let mut core = open_state(rt.alloc(), &opening)?;
    assert!(rt; 1 < core.identity.geometry.nodes());
    assert!(rt; matches!(want(&core, 0), Some(Wish::NewDisk(2))));
    assert!(rt; want(&core, 1).is_none());
    core.set_state(0, NodeState::Loaded);
    assert!(rt; 1 < core.identity.geometry.nodes());
    assert!(rt; matches!(want(&core, 0), Some(Wish::Meta)));
    assert!(rt; is_least_member(&core, 1));
    assert!(rt; matches!(want(&core, 1), Some(Wish::NewDisk(2))));
    Ok(())
}
