ghost use Rattle.std.specs.Prelude.{◌≡◌};

use crate::{FolderShelf, MemShelf, Shelf, ShelfEnd, is_file_name};
use leg_store::LegDev;
use mdc_types::Sector;
use std::fs;
use std::test::Fail;

// A sector of this byte, and three bytes past it.
fn bytes(byte: u8) -> [u8; 515] {
    let mut bytes = [byte; 515];
    bytes[514] = 7;
    bytes
}

// Stores a file, opens it, writes its sector and takes it back. The calls of the shelf are four.
fn through_a_leg<H: Shelf>(shelf: &mut H, name: &str) -> Result<bool, ShelfEnd> {
    shelf.store(name, &bytes(1))?;
    if shelf.size(name)? != Some(515) {
        return Ok(false);
    }
    let Some(mut leg) = shelf.open_leg(name)? else {
        return Ok(false);
    };
    let written = leg.length() == 1 && leg.write(0, &Sector { bytes: [2; 512] }).is_ok();
    shelf.close_leg(name, leg)?;
    Ok(written)
}

#[test]
fn a_leg_in_memory(rt: HostRuntime) -> Result<(), Fail> {
    let alloc = rt.alloc();
    for failing in 0..5 {
        let mut shelf = MemShelf::new(alloc, vec![in alloc; failing]?);
        let wanted = if failing < 4 {
            Err(ShelfEnd::Failed)
        } else {
            Ok(true)
        };
        assert_eq!(rt;
            through_a_leg(&mut shelf, "demo.0"),
            wanted,
            "call {failing}"
        );
        assert_eq!(rt; shelf.calls(), u64::from(failing + 1).min(4));
    }
    let mut shelf = MemShelf::new(alloc, Vec::new(alloc));
    assert_eq!(rt; through_a_leg(&mut shelf, "demo.0"), Ok(true));
    let mut wanted = bytes(2);
    wanted[512..].copy_from_slice(&[1, 1, 7]);
    assert_eq!(rt;
        shelf
            .file("demo.0")
            .map(|v| v.as_slice() == wanted.as_slice()),
        Some(true)
    );
    assert!(rt; shelf.file("demo.1").is_none());
    Ok(())
}

#[test]
fn a_leg_of_a_file(rt: HostRuntime) -> Result<(), Fail> {
    let name = "leg_shelf_test.0";
    let mut shelf = FolderShelf::new(&rt);
    assert_eq!(rt; through_a_leg(&mut shelf, name), Ok(true));
    let held = fs::read(&rt, name)?;
    fs::remove_file(&rt, name)?;
    let mut wanted = bytes(2);
    wanted[512..].copy_from_slice(&[1, 1, 7]);
    assert_eq!(rt; held.as_slice(), wanted.as_slice());
    assert_eq!(rt; shelf.size(name), Ok(None));
    assert_eq!(rt; shelf.size("../leg_shelf_test.0"), Err(ShelfEnd::Failed));
    Ok(())
}

const NAMES: [(&str, bool); 8] = [
    ("demo.0", true),
    ("_", true),
    ("a..b", true),
    ("", false),
    (".", false),
    ("..", false),
    (".demo", false),
    ("a/b", false),
];

#[test]
fn names_of_files(rt: HostRuntime) {
    for (name, wanted) in NAMES {
        assert_eq!(rt; is_file_name(name), wanted, "{name}");
    }
}
