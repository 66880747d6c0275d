//! Values as the TileDB format describes them.
use std::cmp::Ordering;
use std::test::Fail;
use ts_base::{ByteList, Val};
use ts_value::{ValType, compare, default_fill, fits};

#[test]
fn an_integer_fits_the_range_of_its_type(rt: HostRuntime) {
    for (ty, number, wanted) in [
        (ValType::U8, 255, true),
        (ValType::U8, 256, false),
        (ValType::U8, -1, false),
        (ValType::I8, -128, true),
        (ValType::I8, 128, false),
        (ValType::U64, 18446744073709551615, true),
        (ValType::I64, 9223372036854775808, false),
        (ValType::Text, 0, false),
    ] {
        assert_eq!(rt;
            fits(ty, true, &Val::Int(number)),
            wanted,
            "{ty:?} {number}"
        );
    }
}

#[test]
fn a_fill_is_the_one_of_the_format(rt: HostRuntime) {
    let alloc = rt.alloc();
    for (ty, wanted) in [
        (ValType::I8, -128),
        (ValType::U16, 65535),
        (ValType::U64, 18446744073709551615),
    ] {
        assert_eq!(rt; default_fill(alloc, ty, false), Val::Int(wanted), "{ty:?}");
    }
    assert_eq!(rt;
        default_fill(alloc, ValType::Text, false),
        Val::Bytes(ByteList::new(alloc))
    );
    assert_eq!(rt; default_fill(alloc, ValType::Text, true), Val::Null);
}

#[test]
fn texts_fit_and_compare_byte_by_byte(rt: HostRuntime) -> Result<(), Fail> {
    let alloc = rt.alloc();
    let text = Val::Bytes(ByteList::of_bytes(alloc, b"ab")?);
    let blob = Val::Bytes(ByteList::of_bytes(alloc, b"a\xff")?);
    assert!(rt; fits(ValType::Text, false, &text));
    assert!(rt; !fits(ValType::Text, false, &blob));
    assert!(rt; fits(ValType::Blob, false, &blob));
    assert_eq!(rt; compare(&text, &blob), Ordering::Less);
    assert_eq!(rt; compare(&Val::Int(9), &text), Ordering::Less);
    assert_eq!(rt; compare(&Val::Int(-1), &Val::Null), Ordering::Greater);
    Ok(())
}
