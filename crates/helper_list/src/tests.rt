use crate::is_live;
use mdc_types::{Geometry, NodeState};
use std::test::Fail;
use world_openings::{Opening, open_state};

#[test]
fn members_are_live(rt: HostRuntime) -> Result<(), Fail> {
    let geometry = Geometry::new(2, 16, 4)?;
    let opening = Opening::header(rt.alloc(), geometry, 2, false, 0)?;
    let mut core = open_state(rt.alloc(), &opening)?;
    assert!(rt; 2 < core.identity.geometry.nodes());
    assert!(rt; is_live(&core, 0) && is_live(&core, 1) && !is_live(&core, 2));
    core.set_state(0, NodeState::Out);
    core.set_state(2, NodeState::Joining);
    assert!(rt; 2 < core.identity.geometry.nodes());
    assert!(rt; !is_live(&core, 0) && is_live(&core, 1) && is_live(&core, 2));
    Ok(())
}
