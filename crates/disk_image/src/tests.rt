use crate::{ImageError, create};
use leg_shelf::MemShelf;
use mdc_types::Geometry;
use std::test::Fail;

#[test]
fn creates_images(rt: HostRuntime) -> Result<(), Fail> {
    let alloc = rt.alloc();
    let geometry = Geometry::new(2, 16, 4).ok().ok_or("sizes")?;
    let mut shelf = MemShelf::new(alloc, Vec::new(alloc));
    assert_eq!(rt;
        create(alloc, &mut shelf, geometry, "demo", [0; 16]),
        Ok(())
    );
    for (file, sum) in [
        ("demo.0", [0xef, 0xb4, 0x99, 0x18]),
        ("demo.1", [0xf0, 0xb4, 0x99, 0x19]),
    ] {
        let bytes = shelf.file(file).ok_or("no file")?;
        assert_eq!(rt; bytes.len(), 49_152);
        assert_eq!(rt; &bytes[4096 + 216..4096 + 220], sum.as_slice(), "{file}");
    }
    assert!(rt; shelf.file("demo.2").is_none());
    Ok(())
}
