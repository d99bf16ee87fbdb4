//! Loads and stores over two regions, at their ends and across them, and in a region of several chunks.

use a64_memory::{Region, load1, load8, store1, store8};
use std::test::Fail;

#[test]
fn loads_after_stores(rt: HostRuntime) -> Result<(), Fail> {
    let low = Region::zeros(rt.alloc(), 0x1000_0000, 16)?;
    let high = Region::zeros(rt.alloc(), 0x1000_0010, 9)?;
    let mut regions = vec![in rt.alloc(); low, high]?;
    assert!(rt; store8(&mut regions, 0x1000_0008, 0x0102_0304_0506_0708));
    assert!(rt; store1(&mut regions, 0x1000_0018, 0xabcd));
    assert_eq!(rt; load8(&regions, 0x1000_0008), Some(0x0102_0304_0506_0708));
    assert_eq!(rt; load1(&regions, 0x1000_0008), Some(8));
    assert_eq!(rt; load8(&regions, 0x1000_0011), Some(0xcd00_0000_0000_0000));
    assert!(rt; !store8(&mut regions, 0x1000_0009, 1));
    assert!(rt; !store1(&mut regions, 0x1000_0019, 1));
    assert_eq!(rt; load8(&regions, 0x1000_0012), None);
    assert_eq!(rt; load1(&regions, 0x0fff_ffff), None);
    Ok(())
}

#[test]
fn loads_and_stores_across_chunks(rt: HostRuntime) -> Result<(), Fail> {
    let region = Region::zeros(rt.alloc(), 0x4000_0000, 0x30_0000)?;
    let mut regions = vec![in rt.alloc(); region]?;
    assert!(rt; store8(&mut regions, 0x4010_0000 - 3, 0x0102_0304_0506_0708));
    assert_eq!(rt;
        load8(&regions, 0x4010_0000 - 3),
        Some(0x0102_0304_0506_0708)
    );
    assert_eq!(rt; load8(&regions, 0x4010_0000), Some(0x01_0203_0405));
    assert_eq!(rt; load8(&regions, 0x4030_0000 - 8), Some(0));
    assert!(rt; store8(&mut regions, 0x4030_0000 - 8, 9));
    assert_eq!(rt; load8(&regions, 0x4030_0000 - 12), Some(9 << 32));
    assert_eq!(rt; load1(&regions, 0x4020_0000), Some(0));
    Ok(())
}
