//! Tiles of columns byte for byte, and where a broken one is damaged.
use std::alloc::Global;
use std::test::Fail;
use ts_base::{ByteList, OutOfMemory, Val, ValType};
use ts_column::{
    Tile, TileFault, column_object, decode_column, decode_origins, decode_tile, encode_column,
    encode_origins,
};
use ts_wire::{Damaged, ReadFault};

// The object of a column of one cell of 64 signed bits that holds 10.
const TEN: [u8; 22] = [
    0x54, 0x44, 0x42, 0x55, 0x06, 0x01, 0x08, 0, 0, 0, 0, 0, 0, 0, // the envelope
    0x0a, 0, 0, 0, 0, 0, 0, 0, // the cell
];

// The starts of three texts, of two bytes, of none and of three.
const STARTS: [u8; 24] = [
    0, 0, 0, 0, 0, 0, 0, 0, 2, 0, 0, 0, 0, 0, 0, 0, 2, 0, 0, 0, 0, 0, 0, 0,
];

fn tile(alloc: Global, fixed: &[u8], var: &[u8], marks: &[u8]) -> Result<Tile, OutOfMemory> {
    Ok(Tile {
        fixed: ByteList::of_bytes(alloc, fixed)?,
        var: ByteList::of_bytes(alloc, var)?,
        validity: ByteList::of_bytes(alloc, marks)?,
    })
}

// The fault of a tile of nullable values.
fn fault(
    alloc: Global,
    ty: ValType,
    count: u64,
    parts: (&[u8], &[u8], &[u8]),
) -> Result<Option<TileFault>, OutOfMemory> {
    let tile = tile(alloc, parts.0, parts.1, parts.2)?;
    Ok(decode_column(alloc, ty, true, count, &tile.view()).err())
}

#[test]
fn a_column_of_one_cell_is_spelled_and_read_byte_for_byte(rt: HostRuntime) -> Result<(), Fail> {
    let alloc = rt.alloc();
    let value = tile(alloc, &TEN[14..], &[], &[])?;
    let row = decode_tile(alloc, ValType::I64, false, 1, &value)
        .ok()
        .ok_or("damaged")?;
    assert_eq!(rt; row.as_slice(), [Val::Int(10)].as_slice());
    let object = column_object(alloc, &[value.fixed])?;
    assert_eq!(rt; object.as_slice(), TEN.as_slice());
    Ok(())
}

#[test]
fn texts_stand_one_after_another_with_their_marks(rt: HostRuntime) -> Result<(), Fail> {
    let alloc = rt.alloc();
    let texts = tile(alloc, &STARTS, b"ab\xc3\xa9!", &[1, 0, 1])?;
    let row = decode_tile(alloc, ValType::Text, true, 3, &texts)
        .ok()
        .ok_or("damaged")?;
    assert_eq!(rt; row.len(), 3);
    let column = decode_column(alloc, ValType::Text, true, 3, &texts.view())
        .ok()
        .ok_or("damaged")?;
    let again = encode_column(alloc, ValType::Text, true, &column)?;
    assert_eq!(rt; again, texts);
    Ok(())
}

#[test]
fn a_tile_is_damaged_in_its_first_broken_part(rt: HostRuntime) -> Result<(), Fail> {
    let alloc = rt.alloc();
    let fixed = |at: u64| Some(TileFault::Fixed(Damaged { at }));
    let var = |at: u64| Some(TileFault::Var(Damaged { at }));
    let validity = |at: u64| Some(TileFault::Validity(Damaged { at }));
    for (parts, wanted) in [
        ((&[1, 0, 2, 0][..], &[][..], &[1, 1][..]), None),
        ((&[1, 0, 2][..], &[9][..], &[1, 1][..]), fixed(2)),
        ((&[1, 0, 2, 0, 3][..], &[][..], &[1, 1][..]), fixed(4)),
        ((&[1, 0, 2, 0][..], &[9][..], &[1, 2][..]), var(0)),
        ((&[1, 0, 2, 0][..], &[][..], &[1, 2][..]), validity(1)),
        ((&[1, 0, 2, 0][..], &[][..], &[1, 0][..]), validity(1)),
        ((&[1, 0, 0, 0][..], &[][..], &[1, 0][..]), None),
        ((&[1, 0, 2, 0][..], &[][..], &[1][..]), validity(1)),
        ((&[1, 0, 2, 0][..], &[][..], &[1, 1, 0][..]), validity(2)),
    ] {
        assert_eq!(rt; fault(alloc, ValType::I16, 2, parts)?, wanted);
    }
    let mut late = STARTS;
    late[16] = 1;
    let mut far = STARTS;
    far[16] = 9;
    let mut first = STARTS;
    first[0] = 1;
    for (parts, wanted) in [
        ((&first[..], &b"ab\xc3\xa9!"[..], &[1, 0, 1][..]), fixed(0)),
        ((&late[..], &b"ab\xc3\xa9!"[..], &[1, 0, 1][..]), fixed(16)),
        ((&far[..], &b"ab\xc3\xa9!"[..], &[1, 0, 1][..]), fixed(16)),
        ((&STARTS[..], &b"ab\xc3!!"[..], &[1, 0, 1][..]), var(2)),
        ((&STARTS[..], &b"\xffb\xc3!!"[..], &[1, 0, 1][..]), var(0)),
        (
            (&STARTS[..], &b"ab\xc3\xa9!"[..], &[0, 0, 1][..]),
            validity(0),
        ),
    ] {
        assert_eq!(rt; fault(alloc, ValType::Text, 3, parts)?, wanted);
    }
    Ok(())
}

#[test]
fn origins_are_places_in_their_table(rt: HostRuntime) -> Result<(), Fail> {
    let alloc = rt.alloc();
    let bytes = encode_origins(alloc, 3, &[2, 0])?;
    assert_eq!(rt; bytes.as_slice(), [2, 0, 0, 0, 0, 0, 0, 0].as_slice());
    let origins = decode_origins(alloc, 3, 2, bytes.as_slice())
        .ok()
        .ok_or("damaged")?;
    assert_eq!(rt; origins.as_slice(), [2, 0].as_slice());
    let past = decode_origins(alloc, 2, 2, bytes.as_slice()).err();
    assert_eq!(rt; past, Some(ReadFault::Damaged(Damaged { at: 0 })));
    Ok(())
}
