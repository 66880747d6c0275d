//! An object of an array of two dimensions, with a text and a nullable integer, whose global order is
//! no row order.
use super::{Change, broken_at, read_at};
use std::alloc::Global;
use std::test::Fail;
use ts_base::{ByteList, Coords, FragKey, Key, Label, Val, ValType};
use ts_domain::{Dim, Domain, Order};
use ts_plain::{read_plain, write_plain};
use ts_schema::{Attr, AttrList, Frame, Schema};

// The object of a write of two cells: the text hi and -5 at (4, -1), and no bytes and null at (0, 0).
#[rattlefmt::skip]
const OBJECT: [u8; 250] = [
    // the text TDBU, the kind 7, the version 1, the length 236
    0x54, 0x44, 0x42, 0x55, 0x07, 0x01, 0xec, 0, 0, 0, 0, 0, 0, 0,
    // the schema: timestamp 3, identifier 2
    3, 0, 0, 0, 0, 0, 0, 0, 2, 0, 0, 0, 0, 0, 0, 0, 0, 0, 0, 0, 0, 0, 0, 0,
    // sparse, and not consolidated
    0, 0,
    // the box: along x from 0 to 4, along y from -1 to 0
    0, 0, 0, 0, 0, 0, 0, 0, 0, 0, 0, 0, 0, 0, 0, 0,
    4, 0, 0, 0, 0, 0, 0, 0, 0, 0, 0, 0, 0, 0, 0, 0,
    255, 255, 255, 255, 255, 255, 255, 255, 255, 255, 255, 255, 255, 255, 255, 255,
    0, 0, 0, 0, 0, 0, 0, 0, 0, 0, 0, 0, 0, 0, 0, 0,
    // two cells, one origin: timestamp 7, identifier 9
    2, 0, 0, 0, 0, 0, 0, 0, 1, 0, 0, 0,
    7, 0, 0, 0, 0, 0, 0, 0, 9, 0, 0, 0, 0, 0, 0, 0, 0, 0, 0, 0, 0, 0, 0, 0,
    // a cell at (4, -1)
    4, 0, 0, 0, 0, 0, 0, 0, 0, 0, 0, 0, 0, 0, 0, 0,
    255, 255, 255, 255, 255, 255, 255, 255, 255, 255, 255, 255, 255, 255, 255, 255,
    // its origin at place 0, the text hi, the integer -5
    0, 0, 0, 0, 2, 2, 0, 0, 0, 0, 0, 0, 0, 0x68, 0x69,
    1, 251, 255, 255, 255, 255, 255, 255, 255, 255, 255, 255, 255, 255, 255, 255, 255,
    // a cell at (0, 0)
    0, 0, 0, 0, 0, 0, 0, 0, 0, 0, 0, 0, 0, 0, 0, 0,
    0, 0, 0, 0, 0, 0, 0, 0, 0, 0, 0, 0, 0, 0, 0, 0,
    // its origin at place 0, the text of no bytes, null
    0, 0, 0, 0, 2, 0, 0, 0, 0, 0, 0, 0, 0, 0,
];

const FRAG: FragKey = FragKey {
    t1: 7,
    t2: 7,
    id: 9,
    v: 1,
};

const CHANGES: [Change; 24] = [
    Change(6, 0xeb, 6),
    Change(38, 1, 38),
    Change(39, 2, 39),
    Change(40, 10, 40),
    Change(56, 10, 56),
    Change(72, 0xfb, 72),
    Change(87, 0x7f, 72),
    Change(88, 4, 88),
    Change(104, 0, 104),
    Change(104, 1, 204),
    Change(104, 3, 250),
    Change(112, 0, 112),
    Change(112, 2, 112),
    Change(116, 8, 116),
    Change(140, 5, 140),
    Change(156, 0xfe, 156),
    Change(172, 1, 172),
    Change(176, 0, 176),
    Change(176, 1, 176),
    Change(185, 0xff, 176),
    Change(189, 0, 187),
    Change(187, 2, 187),
    Change(236, 1, 236),
    Change(249, 3, 249),
];

// The frame of the array, in space tiles of 5 by 4 cells.
fn frame() -> Result<Frame, Fail> {
    let x = Dim {
        name: Label::new("x").ok_or("no label")?,
        ty: ValType::I32,
        low: 0,
        high: 9,
        extent: 5,
    };
    let y = Dim {
        name: Label::new("y").ok_or("no label")?,
        ty: ValType::I64,
        low: -4,
        high: 3,
        extent: 4,
    };
    let domain = Domain::new(&[x, y]).ok().ok_or("no domain")?;
    Ok(Frame {
        dense: false,
        domain,
        cell: Order::Row,
        tile: Order::Row,
        capacity: 10_000,
    })
}

// The same, in one space tile.
fn one_tile() -> Result<Frame, Fail> {
    let x = Dim {
        name: Label::new("x").ok_or("no label")?,
        ty: ValType::I32,
        low: 0,
        high: 9,
        extent: 10,
    };
    let y = Dim {
        name: Label::new("y").ok_or("no label")?,
        ty: ValType::I64,
        low: -4,
        high: 3,
        extent: 8,
    };
    let domain = Domain::new(&[x, y]).ok().ok_or("no domain")?;
    Ok(Frame {
        dense: false,
        domain,
        cell: Order::Row,
        tile: Order::Row,
        capacity: 10_000,
    })
}

fn schema(alloc: Global) -> Result<Schema, Fail> {
    let mut attrs = AttrList::new(alloc);
    attrs.push(Attr {
        name: Label::new("t").ok_or("no label")?,
        ty: ValType::Text,
        nullable: false,
        fill: Val::Bytes(ByteList::new(alloc)),
    })?;
    attrs.push(Attr {
        name: Label::new("n").ok_or("no label")?,
        ty: ValType::I16,
        nullable: true,
        fill: Val::Null,
    })?;
    let key = Key { t: 3, id: 2 };
    Ok(Schema { key, attrs })
}

#[test]
fn cells_stand_in_global_order(rt: HostRuntime) -> Result<(), Fail> {
    let alloc = rt.alloc();
    let schema = schema(alloc)?;
    let piece = read_plain(alloc, &frame()?, &schema, FRAG, &OBJECT)?;
    assert_eq!(rt; piece.head.low, Coords::new(&[0, -1]));
    assert_eq!(rt; piece.head.high, Coords::new(&[4, 0]));
    assert_eq!(rt; piece.versions.len(), 2);
    let first = piece.versions.at(0);
    assert_eq!(rt; first.coords, Coords::new(&[4, -1]));
    let text = Val::Bytes(ByteList::of_bytes(alloc, b"hi")?);
    assert_eq!(rt; first.row.as_slice(), [text, Val::Int(-5)].as_slice());
    assert_eq!(rt; write_plain(alloc, &piece)?.as_slice(), OBJECT.as_slice());
    // in one tile the second cell is before the first
    let at = read_at(alloc, &one_tile()?, &schema, FRAG, &OBJECT);
    assert_eq!(rt; at, Some(204));
    Ok(())
}

#[test]
fn a_broken_field_gives_its_offset(rt: HostRuntime) -> Result<(), Fail> {
    let alloc = rt.alloc();
    let (frame, schema) = (frame()?, schema(alloc)?);
    for change in &CHANGES {
        let Change(_, _, broken) = change;
        let at = broken_at(alloc, &frame, &schema, FRAG, &OBJECT, change)?;
        assert_eq!(rt; at, Some(*broken));
    }
    Ok(())
}
