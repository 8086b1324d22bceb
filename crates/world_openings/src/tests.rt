use crate::{Opening, header_leg, open_state};
use mdc_types::{Geometry, NodeState};
use std::test::Fail;

#[test]
fn opens_a_warm_header(rt: HostRuntime) -> Result<(), Fail> {
    let alloc = rt.alloc();
    let geometry = Geometry::new(2, 16, 4).ok().ok_or("sizes")?;
    let opening = Opening::header(alloc, geometry, 2, true, 0)?;
    let core = open_state(alloc, &opening)?;
    assert!(rt; matches!(&core.states[1], NodeState::Up));
    assert!(rt; matches!(&core.states[2], NodeState::Out));
    assert!(rt; geometry.legs() > 1);
    let leg = header_leg(alloc, &opening, 1, Vec::new(alloc))?;
    let sectors = leg.sectors();
    assert_eq!(rt; sectors.len(), 96);
    assert_eq!(rt; sectors[8].bytes[0], 0xfc);
    assert_eq!(rt; sectors[16].bytes[256], 0x0f);
    assert_eq!(rt; sectors[24].bytes[256], 0x0f);
    assert_eq!(rt; sectors[32].bytes[256], 0);
    assert_eq!(rt; sectors[80].bytes[0], 0);
    Ok(())
}
