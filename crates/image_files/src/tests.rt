use crate::{FileNames, close_all, open_file};
use image_faults::{ImageError, ImageFault};
use leg_shelf::{MemShelf, Shelf};
use std::test::Fail;

#[test]
fn opens_and_closes_files(rt: HostRuntime) -> Result<(), Fail> {
    let alloc = rt.alloc();
    let names = FileNames::new(alloc, "demo")?;
    assert_eq!(rt; names.of(1), "demo.1");
    // The calls are two to store, two to size and open, two to size and open, and two to close.
    let mut shelf = MemShelf::new(alloc, vec![in alloc; 6]?);
    let bytes = vec![in alloc; 7u8; 40_961]?;
    assert!(rt; shelf.store("demo.0", &bytes).is_ok());
    assert!(rt; shelf.store("demo.1", &bytes).is_ok());
    let mut legs = Vec::new(alloc);
    for l in 0..2 {
        let file = open_file(&mut shelf, &names, l).ok().ok_or("no file")?;
        assert_eq!(rt; file.size, 40_961);
        legs.push(file.leg)?;
    }
    assert!(rt; legs.len() <= 8);
    assert_eq!(rt;
        close_all(&mut shelf, &names, legs),
        Err(ImageError::Shelf(0))
    );
    assert_eq!(rt; shelf.calls(), 8);
    assert_eq!(rt;
        shelf
            .file("demo.1")
            .map(|v| v.as_slice() == bytes.as_slice()),
        Some(true)
    );
    let missing = open_file(&mut shelf, &names, 2).err();
    assert_eq!(rt; missing, Some(ImageError::Image(2, ImageFault::Missing)));
    Ok(())
}
