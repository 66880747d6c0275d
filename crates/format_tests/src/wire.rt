//! Fields and objects byte for byte, and where a broken one is damaged.
use std::alloc::Global;
use std::test::Fail;
use ts_base::{ByteList, Key, OutOfMemory, Val};
use ts_wire::{Cursor, Damaged, Kind, ReadFault, Scribe, unwrap_body};

// The frame of a dense array with one dimension x from 0 to 9 in tiles of 10, as an object.
const FRAME: [u8; 73] = [
    0x54, 0x44, 0x42, 0x55, 0x01, 0x01, 0x3b, 0, 0, 0, 0, 0, 0, 0, // the envelope
    0x00, 0x00, 0x00, 0x10, 0x27, 0x00, 0x00, 0x01, // orders, capacity, one dimension
    0x01, 0x78, 0x04, // its label and type
    0, 0, 0, 0, 0, 0, 0, 0, 0, 0, 0, 0, 0, 0, 0, 0, // its low bound
    0x09, 0, 0, 0, 0, 0, 0, 0, 0, 0, 0, 0, 0, 0, 0, 0, // its high bound
    0x0a, 0, 0, 0, 0, 0, 0, 0, 0, 0, 0, 0, 0, 0, 0, 0, // its extent
];

// The schema of one attribute v of 64 signed bits with its default fill, as an object.
const SCHEMA: [u8; 36] = [
    0x54, 0x44, 0x42, 0x55, 0x02, 0x01, 0x16, 0, 0, 0, 0, 0, 0, 0, // the envelope
    0x01, 0x01, 0x76, 0x04, 0x00, // one attribute, its label, its type, not nullable
    0x01, 0, 0, 0, 0, 0, 0, 0, 0x80, // its fill, an integer
    0xff, 0xff, 0xff, 0xff, 0xff, 0xff, 0xff, 0xff,
];

#[test]
fn an_object_is_damaged_at_its_first_broken_field(rt: HostRuntime) {
    for (kind, object) in [
        (Kind::Domain, FRAME.as_slice()),
        (Kind::Schema, SCHEMA.as_slice()),
    ] {
        let whole = object.len();
        for (count, at) in [
            (0, 0),
            (3, 0),
            (4, 4),
            (5, 5),
            (6, 6),
            (13, 6),
            (14, 6),
            (35, 6),
        ] {
            let cut = unwrap_body(kind, &object[..count]).err();
            assert_eq!(rt; cut, Some(Damaged { at }), "cut behind {count}");
        }
        let last = unwrap_body(kind, &object[..whole - 1]).err();
        assert_eq!(rt; last, Some(Damaged { at: 6 }));
        assert_eq!(rt;
            unwrap_body(Kind::Plain, object).err(),
            Some(Damaged { at: 4 })
        );
    }
    for (place, at) in [(0, 0), (3, 0), (4, 4), (5, 5), (6, 6), (13, 6)] {
        let mut object = SCHEMA;
        object[place] = 0x7f;
        let fault = unwrap_body(Kind::Schema, &object).err();
        assert_eq!(rt; fault, Some(Damaged { at }), "at {place}");
    }
}

fn fields(alloc: Global, words: &Val) -> Result<ByteList, OutOfMemory> {
    let mut scribe = Scribe::new(alloc);
    scribe.u16(0x1234)?;
    scribe.u32(0x1234_5678)?;
    scribe.u64(1 << 40)?;
    scribe.int(1, true, -1)?;
    scribe.int(2, false, 65534)?;
    scribe.int(4, true, -2)?;
    scribe.int(8, false, u64::MAX as i128)?;
    scribe.key(Key { t: 5, id: 3 << 120 })?;
    scribe.val(&Val::Null)?;
    scribe.val(words)?;
    scribe.bytes(b"end")?;
    Ok(scribe.take())
}

#[test]
fn fields_are_spelled_the_lowest_byte_first(rt: HostRuntime) -> Result<(), Fail> {
    let alloc = rt.alloc();
    let words = Val::Bytes(ByteList::of_bytes(alloc, b"ab")?);
    let written = fields(alloc, &words)?;
    let bytes: [u8; 68] = [
        0x34, 0x12, 0x78, 0x56, 0x34, 0x12, 0, 0, 0, 0, 0, 1, 0, 0, // 2, 4 and 8 bytes
        0xff, 0xfe, 0xff, 0xfe, 0xff, 0xff, 0xff, // -1, 65534, -2
        0xff, 0xff, 0xff, 0xff, 0xff, 0xff, 0xff, 0xff, // the greatest of 64 bits
        5, 0, 0, 0, 0, 0, 0, 0, 0, 0, 0, 0, 0, 0, 0, 0, 0, 0, 0, 0, 0, 0, 0, 3, // the key
        0, 2, 2, 0, 0, 0, 0, 0, 0, 0, b'a', b'b', // null, and two bytes
        b'e', b'n', b'd',
    ];
    assert_eq!(rt; written.as_slice(), bytes.as_slice());
    let (_, ends) = bytes.split_at(54);
    let mut cursor = Cursor::new(ends, 54);
    assert_eq!(rt; cursor.val(alloc), Ok(words));
    assert_eq!(rt; cursor.rest(), b"end".as_slice());
    Ok(())
}

#[test]
fn a_broken_field_leaves_the_cursor_at_its_start(rt: HostRuntime) {
    let damaged = Damaged { at: 14 };
    for label in [b"\x010".as_slice(), b"\x02a", b"\0", b"\x03and", b"\x02a-"] {
        let mut cursor = Cursor::new(label, 14);
        assert_eq!(rt; cursor.label(), Err(damaged), "{label:?}");
        assert_eq!(rt; cursor.at(), 14);
    }
    for val in [
        b"\x03".as_slice(),
        b"\x01abc",
        b"\x02\x02\0\0\0\0\0\0\0a",
        b"\x02\x02",
    ] {
        let mut cursor = Cursor::new(val, 14);
        let fault = cursor.val(rt.alloc()).err();
        assert_eq!(rt; fault, Some(ReadFault::Damaged(damaged)), "{val:?}");
        assert_eq!(rt; cursor.at(), 14);
    }
}
