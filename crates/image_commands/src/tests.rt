use crate::{CommandEnd, create_images};
use leg_shelf::MemShelf;
use mdc_types::Geometry;
use script_text::MemSink;
use std::test::Fail;

#[test]
fn creates(rt: HostRuntime) -> Result<(), Fail> {
    let alloc = rt.alloc();
    let geometry = Geometry::new(2, 16, 4).ok().ok_or("sizes")?;
    let mut shelf = MemShelf::new(alloc, Vec::new(alloc));
    let mut sink = MemSink::new(alloc, 64, Vec::new(alloc))?;
    assert_eq!(rt;
        create_images(alloc, &mut shelf, &mut sink, geometry, "demo", [0; 16]),
        CommandEnd::Done
    );
    assert_eq!(rt;
        sink.bytes(),
        b"created demo.0\ncreated demo.1\n".as_slice()
    );
    assert_eq!(rt; shelf.file("demo.1").map(Vec::len), Some(49_152));
    Ok(())
}

#[test]
fn tells_the_shelf(rt: HostRuntime) -> Result<(), Fail> {
    let alloc = rt.alloc();
    let geometry = Geometry::new(2, 16, 4).ok().ok_or("sizes")?;
    let mut shelf = MemShelf::new(alloc, vec![in alloc; 1]?);
    let mut sink = MemSink::new(alloc, 64, Vec::new(alloc))?;
    assert_eq!(rt;
        create_images(alloc, &mut shelf, &mut sink, geometry, "demo", [0; 16]),
        CommandEnd::Shelf(1)
    );
    assert_eq!(rt; sink.bytes(), b"shelf demo.1\n".as_slice());
    Ok(())
}
