use crate::compare;
use mdc_types::Sector;
use std::test::Fail;

#[test]
fn rows_of_three_blocks(rt: HostRuntime) -> Result<(), Fail> {
    let a = vec![in rt.alloc(); Sector::ZERO; 150]?;
    let same = vec![in rt.alloc(); Sector::ZERO; 150]?;
    let mut last = vec![in rt.alloc(); Sector::ZERO; 150]?;
    let mut second = vec![in rt.alloc(); Sector::ZERO; 150]?;
    last[149].bytes[511] = 1;
    second[64].bytes[511] = 1;
    let lengths = [a.len(), same.len(), last.len(), second.len()];
    assert!(rt; lengths[0] == lengths[1] && lengths[0] == lengths[2] && lengths[2] == lengths[3]);
    assert_eq!(rt;
        compare(&rt, rt.alloc(), a.as_slice(), same.as_slice())?,
        None
    );
    assert_eq!(rt;
        compare(&rt, rt.alloc(), a.as_slice(), last.as_slice())?,
        Some(149)
    );
    assert_eq!(rt;
        compare(&rt, rt.alloc(), last.as_slice(), second.as_slice())?,
        Some(64)
    );
    Ok(())
}

#[test]
fn no_sectors(rt: HostRuntime) -> Result<(), Fail> {
    assert_eq!(rt; compare(&rt, rt.alloc(), &[], &[])?, None);
    Ok(())
}
