use crate::{created_text, image_text, shelf_text, show_text, upgraded_text};
use image_faults::ImageFault;
use md_superblock::{Field, SuperFault};
use std::test::Fail;

const FAULTS: &[(ImageFault, &str)] = &[
    (ImageFault::Missing, "image 1 missing\n"),
    (ImageFault::Short, "image 1 short\n"),
    (ImageFault::Long, "image 1 long\n"),
    (ImageFault::Super(SuperFault::Magic(0)), "image 1 magic 0\n"),
    (
        ImageFault::Super(SuperFault::Version(2)),
        "image 1 version 2\n",
    ),
    (
        ImageFault::Super(SuperFault::Sum {
            stored: 412726511,
            found: 412726510,
        }),
        "image 1 sum 412726511 412726510\n",
    ),
    (ImageFault::Super(SuperFault::Level(4)), "image 1 level 4\n"),
    (
        ImageFault::Super(SuperFault::Range(Field::RaidDisks)),
        "image 1 range raid-disks\n",
    ),
    (ImageFault::Super(SuperFault::Role(8)), "image 1 role 8\n"),
    (ImageFault::Slot(3), "image 1 slot 3\n"),
    (ImageFault::Geometry, "image 1 geometry\n"),
    (ImageFault::Unmarked(5), "image 1 unmarked 5\n"),
    (ImageFault::Upgraded, "image 1 upgraded\n"),
];

#[test]
fn faults(rt: HostRuntime) -> Result<(), Fail> {
    for (fault, text) in FAULTS {
        assert_eq!(rt; image_text(rt.alloc(), 1, fault)?.as_str(), *text);
    }
    Ok(())
}

#[test]
fn files(rt: HostRuntime) -> Result<(), Fail> {
    let alloc = rt.alloc();
    assert_eq!(rt;
        created_text(alloc, "demo", 2)?.as_str(),
        "created demo.0\ncreated demo.1\n"
    );
    assert_eq!(rt; upgraded_text(alloc, "d", 1)?.as_str(), "upgraded d.0\n");
    assert_eq!(rt; shelf_text(alloc, "demo", 7)?.as_str(), "shelf demo.7\n");
    Ok(())
}

#[test]
fn shows_nothing(rt: HostRuntime) -> Result<(), Fail> {
    assert_eq!(rt; show_text(rt.alloc(), &[])?.as_str(), "");
    Ok(())
}
