use crate::show_images;
use image_commands::{CommandEnd, create_images};
use leg_shelf::MemShelf;
use mdc_types::Geometry;
use script_text::MemSink;
use std::test::Fail;

#[test]
fn shows_new_images(rt: HostRuntime) -> Result<(), Fail> {
    let alloc = rt.alloc();
    let geometry = Geometry::new(2, 16, 4).ok().ok_or("sizes")?;
    let mut shelf = MemShelf::new(alloc, Vec::new(alloc));
    let mut created = MemSink::new(alloc, 64, Vec::new(alloc))?;
    assert_eq!(rt;
        create_images(alloc, &mut shelf, &mut created, geometry, "demo", [0; 16]),
        CommandEnd::Done
    );
    let mut sink = MemSink::new(alloc, 1024, Vec::new(alloc))?;
    assert_eq!(rt;
        show_images(&rt, alloc, &mut shelf, &mut sink, "demo"),
        CommandEnd::Done
    );
    let first = b"leg 0 events 1 roles WW sum 1899b4ef\nslot 0 0 set -\n";
    let second = b"leg 1 events 1 roles WW sum 1999b4f0\nslot 1 0 set -\n";
    assert!(rt; sink.bytes().starts_with(first.as_slice()));
    assert!(rt; sink.bytes().windows(52).any(|w| w == second.as_slice()));
    Ok(())
}
