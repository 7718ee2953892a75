//! Changes pushed and given back, latest first.
use super::*;
use std::test::Fail;

#[test]
fn changes_come_back_latest_first(rt: HostRuntime) -> Result<(), Fail> {
    let mut log = Undo::make(rt.alloc());
    log.reserve(3)?;
    log.push(7u32);
    let mark = log.mark();
    log.push(8);
    log.push(9);
    let mut other = log.copy(rt.alloc())?;
    assert_eq!(rt; log.pop_since(mark), Some(9));
    assert_eq!(rt; log.pop_since(mark), Some(8));
    assert_eq!(rt; log.pop_since(mark), None);
    assert_eq!(rt; log.mark(), 1);
    log.clear();
    assert_eq!(rt; log.pop_since(0), None);
    assert_eq!(rt; other.pop_since(0), Some(9));
    Ok(())
}
