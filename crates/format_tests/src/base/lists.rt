//! Lists.
use std::test::Fail;
use ts_base::{ByteList, CountList, Duplicate, StartList};

#[test]
fn items_stand_where_they_were_put(rt: HostRuntime) -> Result<(), Fail> {
    let alloc = rt.alloc();
    let mut counts = CountList::new(alloc);
    assert!(rt; counts.is_empty());
    counts.push(5)?;
    counts.push(6)?;
    assert_eq!(rt; counts.len(), 2);
    counts.set(0, 7);
    let mut starts = StartList::new(alloc);
    starts.push(counts.copy(alloc)?)?;
    assert_eq!(rt; counts.pop(), Some(6));
    assert_eq!(rt; *counts.at(0), 7);
    starts.push(counts)?;
    assert_eq!(rt; starts.len(), 2);
    assert_eq!(rt; starts.at(0).as_slice(), [7, 6].as_slice());
    assert!(rt; starts.at(0) != starts.at(1));
    Ok(())
}

#[test]
fn bytes_are_appended_in_order(rt: HostRuntime) -> Result<(), Fail> {
    let alloc = rt.alloc();
    let mut bytes = ByteList::of_bytes(alloc, b"ab")?;
    bytes.append(b"cd")?;
    let items = bytes.copy(alloc)?.into_vec();
    assert_eq!(rt; items.as_slice(), b"abcd".as_slice());
    assert_eq!(rt; ByteList::from_vec(items), bytes);
    Ok(())
}
