use crate::agreement::agreement_fault;
use crate::heads::newest;
use crate::{ImageFault, LegImage};
use md_superblock::Super;
use mdc_types::{Geometry, Role, Roles};
use std::alloc::Global;
use std::test::Fail;

fn superblock() -> Super {
    let mut roles = [Role::Spare; 8];
    roles[0] = Role::Working;
    roles[1] = Role::Working;
    Super {
        geometry_legs: 2,
        sectors: 16,
        room: 20,
        version: 1,
        name: [97; 32],
        uuid: [7; 16],
        device: 0,
        events: 3,
        roles: Roles { legs: roles },
    }
}

fn image(alloc: Global, superblock: Super) -> Result<LegImage, Fail> {
    Ok(LegImage {
        superblock,
        sum: 0,
        geometry: Geometry::grown(2, 16, 20, 4)?,
        slots: Vec::new(alloc),
    })
}

#[test]
fn legs_that_go_together(rt: HostRuntime) -> Result<(), Fail> {
    let alloc = rt.alloc();
    let first = superblock();
    let mut images = Vec::new(alloc);
    assert_eq!(rt; agreement_fault(&images, &first), None);
    let mut other = first;
    other.device = 1;
    assert_eq!(rt;
        agreement_fault(&images, &other),
        Some(ImageFault::Geometry)
    );
    images.push(image(alloc, first)?)?;
    assert_eq!(rt; agreement_fault(&images, &other), None);
    assert_eq!(rt;
        agreement_fault(&images, &first),
        Some(ImageFault::Geometry)
    );
    // Another size or other roles at the same events number, and at another one.
    other.sectors = 12;
    assert_eq!(rt;
        agreement_fault(&images, &other),
        Some(ImageFault::Geometry)
    );
    other.events = 4;
    other.roles.legs[0] = Role::Faulty;
    assert_eq!(rt; agreement_fault(&images, &other), None);
    other.events = 3;
    other.sectors = 16;
    assert_eq!(rt;
        agreement_fault(&images, &other),
        Some(ImageFault::Geometry)
    );
    // Another room, and another uuid.
    other.events = 4;
    other.room = 24;
    assert_eq!(rt;
        agreement_fault(&images, &other),
        Some(ImageFault::Geometry)
    );
    other.room = 20;
    other.uuid = [8; 16];
    assert_eq!(rt;
        agreement_fault(&images, &other),
        Some(ImageFault::Geometry)
    );
    Ok(())
}

#[test]
fn newest_leg(rt: HostRuntime) -> Result<(), Fail> {
    let alloc = rt.alloc();
    let mut images = Vec::new(alloc);
    for events in [2, 5, 5, 4] {
        let mut superblock = superblock();
        superblock.events = events;
        images.push(image(alloc, superblock)?)?;
    }
    assert_eq!(rt; images.len(), 4);
    assert_eq!(rt; newest(&images), 1);
    Ok(())
}
