//! The types of values, and copies of rows.
use std::test::Fail;
use ts_base::{ByteList, Duplicate, Row, Val, ValType};

#[test]
fn integer_types_have_their_bounds(rt: HostRuntime) {
    for (ty, least, greatest, width) in [
        (ValType::I8, -128, 127, 1),
        (ValType::I16, -32768, 32767, 2),
        (ValType::I32, -2147483648, 2147483647, 4),
        (ValType::I64, -9223372036854775808, 9223372036854775807, 8),
        (ValType::U8, 0, 255, 1),
        (ValType::U16, 0, 65535, 2),
        (ValType::U32, 0, 4294967295, 4),
        (ValType::U64, 0, 18446744073709551615, 8),
    ] {
        assert!(rt; ty.is_integer());
        assert_eq!(rt; ty.least(), least);
        assert_eq!(rt; ty.greatest(), greatest);
        assert_eq!(rt; ty.width(), width);
    }
    assert!(rt; !ValType::Text.is_integer() && !ValType::Blob.is_integer());
    assert_eq!(rt; (ValType::Text.width(), ValType::Blob.width()), (0, 0));
}

#[test]
fn a_copied_row_equals_its_source(rt: HostRuntime) -> Result<(), Fail> {
    let alloc = rt.alloc();
    let mut row = Row::new(alloc);
    row.push(Val::Null)?;
    row.push(Val::Int(-7))?;
    row.push(Val::Bytes(ByteList::of_bytes(alloc, b"seven")?))?;
    assert_eq!(rt; row.copy(alloc)?, row);
    assert!(rt; *row.at(0) != *row.at(1));
    Ok(())
}
