use super::*;
use std::test::Fail;

#[test]
fn worked_row(rt: HostRuntime) -> Result<(), Fail> {
    let mut memory = Memory::new(rt.alloc(), 1, 2)?;
    assert_eq!(rt; memory.grow(1)?, Some(1));
    assert_eq!(rt; memory.grow(1)?, None);
    assert_eq!(rt; memory.load(131_069, 4), Err(OutOfBounds));
    assert_eq!(rt; memory.load(131_068, 4), Ok(0));
    assert_eq!(rt; memory.store(131_064, 8, 0x0102_0304_0506_0708), Ok(()));
    assert_eq!(rt; memory.load(131_065, 2), Ok(0x0607));
    assert_eq!(rt; memory.part(131_070, 2), Some([2, 1].as_slice()));
    assert_eq!(rt; memory.part(131_071, 2), None);
    assert_eq!(rt; memory.put(131_069, [9, 8].as_slice()), Ok(()));
    assert_eq!(rt; memory.load(131_068, 4), Ok(0x0108_0904));
    assert_eq!(rt; memory.put(131_071, [9, 8].as_slice()), Err(OutOfBounds));
    Ok(())
}
