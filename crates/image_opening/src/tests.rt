use crate::{Versions, open_array};
use disk_image::create;
use image_faults::{ImageError, ImageFault};
use image_files::close;
use leg_shelf::MemShelf;
use leg_store::Left;
use mdc_types::Geometry;
use std::alloc::Global;
use std::test::Fail;

// A shelf with the images of an array of two legs of 70 sectors, of image version 1 or 2.
fn created(alloc: Global, second: bool) -> Result<MemShelf, Fail> {
    let geometry = if second {
        Geometry::second(2, 70, 70, 4)?
    } else {
        Geometry::grown(2, 70, 70, 4)?
    };
    let mut shelf = MemShelf::new(alloc, Vec::new(alloc));
    create(alloc, &mut shelf, geometry, "demo", [7; 16])?;
    Ok(shelf)
}

#[test]
fn opens_an_array(rt: HostRuntime) -> Result<(), Fail> {
    let alloc = rt.alloc();
    let mut shelf = created(alloc, false)?;
    let array = open_array(&rt, alloc, &mut shelf, "demo", Versions::First)?;
    assert_eq!(rt; array.legs.len(), 2);
    assert_eq!(rt; array.images.len(), 2);
    assert_eq!(rt; array.opening.base().len(), 70);
    assert_eq!(rt; array.opening.geometry().sectors(), 70);
    assert!(rt; close(alloc, &mut shelf, "demo", array.legs).is_ok());
    Ok(())
}

// One byte of leg 1 is another: of its superblock, of a page of slot 3, and of data sector 65.
const FAULTS: [(usize, ImageFault); 2] = [
    (512 * (16 + 8 * 3) + 100, ImageFault::Slot(3)),
    (512 * (80 + 65), ImageFault::Unmarked(65)),
];

#[test]
fn one_byte_is_another(rt: HostRuntime) -> Result<(), Fail> {
    let alloc = rt.alloc();
    for (at, fault) in FAULTS {
        let mut shelf = created(alloc, false)?;
        let mut bytes = shelf.file("demo.1").ok_or("no file")?.clone()?;
        if let Some(byte) = bytes.get_mut(at) {
            *byte ^= 1;
        }
        shelf.put("demo.1", bytes)?;
        assert_eq!(rt;
            open_array(&rt, alloc, &mut shelf, "demo", Versions::Any).err(),
            Some(ImageError::Image(1, fault))
        );
    }
    let mut shelf = created(alloc, true)?;
    assert_eq!(rt;
        open_array(&rt, alloc, &mut shelf, "demo", Versions::First).err(),
        Some(ImageError::Image(0, ImageFault::Upgraded))
    );
    assert!(rt; open_array(&rt, alloc, &mut shelf, "demo", Versions::Any).is_ok());
    Ok(())
}

#[test]
fn leg_fails(rt: HostRuntime) -> Result<(), Fail> {
    let alloc = rt.alloc();
    let mut shelf = created(alloc, false)?;
    // The transfers are one for the superblock, 64 for the slots, and then those of the data.
    for transfer in [0, 64, 65, 134] {
        shelf.fail_leg("demo.1", vec![in alloc; (transfer, Left::Old)]?)?;
        assert_eq!(rt;
            open_array(&rt, alloc, &mut shelf, "demo", Versions::Any).err(),
            Some(ImageError::Device(1)),
            "transfer {transfer}"
        );
    }
    shelf.fail_leg("demo.1", vec![in alloc; (135, Left::Old)]?)?;
    assert!(rt; open_array(&rt, alloc, &mut shelf, "demo", Versions::Any).is_ok());
    Ok(())
}
