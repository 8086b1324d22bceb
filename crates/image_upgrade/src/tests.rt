use crate::upgrade_images;
use image_commands::{CommandEnd, create_images};
use image_faults::ImageFault;
use leg_shelf::MemShelf;
use mdc_types::Geometry;
use script_text::MemSink;
use std::alloc::Global;
use std::test::Fail;

// A shelf with the images of an array of two legs, some of whose calls fail.
fn created(alloc: Global, failing: Vec<u32>) -> Result<MemShelf, Fail> {
    let geometry = Geometry::new(2, 16, 4).ok().ok_or("sizes")?;
    let mut shelf = MemShelf::new(alloc, failing);
    let mut sink = MemSink::new(alloc, 64, Vec::new(alloc))?;
    let end = create_images(alloc, &mut shelf, &mut sink, geometry, "demo", [0; 16]);
    if end == CommandEnd::Done {
        Ok(shelf)
    } else {
        Err(Fail::from("no images"))
    }
}

#[test]
fn upgrades(rt: HostRuntime) -> Result<(), Fail> {
    let alloc = rt.alloc();
    let mut shelf = created(alloc, Vec::new(alloc))?;
    let mut sink = MemSink::new(alloc, 64, Vec::new(alloc))?;
    assert_eq!(rt;
        upgrade_images(&rt, alloc, &mut shelf, &mut sink, "demo", "demo2"),
        CommandEnd::Done
    );
    assert_eq!(rt;
        sink.bytes(),
        b"upgraded demo2.0\nupgraded demo2.1\n".as_slice()
    );
    for (file, sum) in [
        ("demo2.0", [0xaf, 0xb5, 0x99, 0x18]),
        ("demo2.1", [0xb0, 0xb5, 0x99, 0x19]),
    ] {
        let bytes = shelf.file(file).ok_or("no file")?;
        assert_eq!(rt; bytes.len(), 147_456);
        assert_eq!(rt; &bytes[4096 + 216..4096 + 220], sum.as_slice(), "{file}");
    }
    let mut again = MemSink::new(alloc, 64, Vec::new(alloc))?;
    assert_eq!(rt;
        upgrade_images(&rt, alloc, &mut shelf, &mut again, "demo2", "demo3"),
        CommandEnd::Image(0, ImageFault::Upgraded)
    );
    assert_eq!(rt; again.bytes(), b"image 0 upgraded\n".as_slice());
    Ok(())
}

#[test]
fn tells_the_new_file(rt: HostRuntime) -> Result<(), Fail> {
    let alloc = rt.alloc();
    // Two calls create, four size and open, and then two store.
    let mut shelf = created(alloc, vec![in alloc; 7]?)?;
    let mut sink = MemSink::new(alloc, 64, Vec::new(alloc))?;
    assert_eq!(rt;
        upgrade_images(&rt, alloc, &mut shelf, &mut sink, "demo", "demo2"),
        CommandEnd::ShelfTo(1)
    );
    assert_eq!(rt; sink.bytes(), b"shelf demo2.1\n".as_slice());
    Ok(())
}
