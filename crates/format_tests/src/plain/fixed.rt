//! Objects of an array of one dimension from 0 to 9 and one attribute of 64-bit integers.
ghost use Rattle.std.specs.Prelude.{IfOk};
ghost use Rattle.std.specs.List.{All};
ghost use Rattle.ts_plain.specs.Merges.{global_order, LiesInside, VersionsAscend};

use super::{Change, broken_at, read_at};
use std::alloc::Global;
use std::test::Fail;
use ts_base::{Coords, FragKey, IndexList, Key, Label, Row, Val, ValType, Version, VersionList};
use ts_domain::{Dim, Domain, Order, SubBox};
use ts_plain::{Want, merge_all, read_head, read_plain, taken, write_plain};
use ts_schema::{Attr, AttrList, Frame, Schema};

// The object of the write of 10 at the coordinate 5, with the timestamp 1 and the identifier 1.
#[rattlefmt::skip]
const ROW: [u8; 145] = [
    // the text TDBU, the kind 7, the version 1
    0x54, 0x44, 0x42, 0x55, 0x07, 0x01,
    // the length of what follows: 131
    0x83, 0x00, 0x00, 0x00, 0x00, 0x00, 0x00, 0x00,
    // the schema: timestamp 0, identifier 2^128 - 1
    0x00, 0x00, 0x00, 0x00, 0x00, 0x00, 0x00, 0x00, 0xff, 0xff, 0xff, 0xff, 0xff, 0xff, 0xff, 0xff,
    0xff, 0xff, 0xff, 0xff, 0xff, 0xff, 0xff, 0xff,
    // sparse, and not consolidated
    0x00, 0x00,
    // the box: from 5 to 5
    0x05, 0x00, 0x00, 0x00, 0x00, 0x00, 0x00, 0x00, 0x00, 0x00, 0x00, 0x00, 0x00, 0x00, 0x00, 0x00,
    0x05, 0x00, 0x00, 0x00, 0x00, 0x00, 0x00, 0x00, 0x00, 0x00, 0x00, 0x00, 0x00, 0x00, 0x00, 0x00,
    // one cell
    0x01, 0x00, 0x00, 0x00, 0x00, 0x00, 0x00, 0x00,
    // one origin
    0x01, 0x00, 0x00, 0x00,
    // the origin: timestamp 1, identifier 1
    0x01, 0x00, 0x00, 0x00, 0x00, 0x00, 0x00, 0x00, 0x01, 0x00, 0x00, 0x00, 0x00, 0x00, 0x00, 0x00,
    0x00, 0x00, 0x00, 0x00, 0x00, 0x00, 0x00, 0x00,
    // the cell: its coordinate 5
    0x05, 0x00, 0x00, 0x00, 0x00, 0x00, 0x00, 0x00, 0x00, 0x00, 0x00, 0x00, 0x00, 0x00, 0x00, 0x00,
    // its origin, the one at place 0
    0x00, 0x00, 0x00, 0x00,
    // its value: an integer, 10
    0x01, 0x0a, 0x00, 0x00, 0x00, 0x00, 0x00, 0x00, 0x00, 0x00, 0x00, 0x00, 0x00, 0x00, 0x00, 0x00,
    0x00,
];

// The object of a consolidation of two writes, the first of two cells.
#[rattlefmt::skip]
const MERGED: [u8; 243] = [
    // the text TDBU, the kind 7, the version 1
    0x54, 0x44, 0x42, 0x55, 0x07, 0x01,
    // the length of what follows: 229
    0xe5, 0x00, 0x00, 0x00, 0x00, 0x00, 0x00, 0x00,
    // the schema: timestamp 0, identifier 2^128 - 1
    0x00, 0x00, 0x00, 0x00, 0x00, 0x00, 0x00, 0x00, 0xff, 0xff, 0xff, 0xff, 0xff, 0xff, 0xff, 0xff,
    0xff, 0xff, 0xff, 0xff, 0xff, 0xff, 0xff, 0xff,
    // sparse, and consolidated
    0x00, 0x01,
    // the box: from 4 to 7
    0x04, 0x00, 0x00, 0x00, 0x00, 0x00, 0x00, 0x00, 0x00, 0x00, 0x00, 0x00, 0x00, 0x00, 0x00, 0x00,
    0x07, 0x00, 0x00, 0x00, 0x00, 0x00, 0x00, 0x00, 0x00, 0x00, 0x00, 0x00, 0x00, 0x00, 0x00, 0x00,
    // three cells
    0x03, 0x00, 0x00, 0x00, 0x00, 0x00, 0x00, 0x00,
    // two origins
    0x02, 0x00, 0x00, 0x00,
    // the origins: timestamp 1 with identifier 1, timestamp 2 with identifier 2
    0x01, 0x00, 0x00, 0x00, 0x00, 0x00, 0x00, 0x00, 0x01, 0x00, 0x00, 0x00, 0x00, 0x00, 0x00, 0x00,
    0x00, 0x00, 0x00, 0x00, 0x00, 0x00, 0x00, 0x00, 0x02, 0x00, 0x00, 0x00, 0x00, 0x00, 0x00, 0x00,
    0x02, 0x00, 0x00, 0x00, 0x00, 0x00, 0x00, 0x00, 0x00, 0x00, 0x00, 0x00, 0x00, 0x00, 0x00, 0x00,
    // a cell: its coordinate 5
    0x05, 0x00, 0x00, 0x00, 0x00, 0x00, 0x00, 0x00, 0x00, 0x00, 0x00, 0x00, 0x00, 0x00, 0x00, 0x00,
    // its origin, the one at place 0
    0x00, 0x00, 0x00, 0x00,
    // its value: an integer, 10
    0x01, 0x0a, 0x00, 0x00, 0x00, 0x00, 0x00, 0x00, 0x00, 0x00, 0x00, 0x00, 0x00, 0x00, 0x00, 0x00,
    0x00,
    // a cell: its coordinate 5
    0x05, 0x00, 0x00, 0x00, 0x00, 0x00, 0x00, 0x00, 0x00, 0x00, 0x00, 0x00, 0x00, 0x00, 0x00, 0x00,
    // its origin, the one at place 1
    0x01, 0x00, 0x00, 0x00,
    // its value: an integer, 20
    0x01, 0x14, 0x00, 0x00, 0x00, 0x00, 0x00, 0x00, 0x00, 0x00, 0x00, 0x00, 0x00, 0x00, 0x00, 0x00,
    0x00,
    // a cell: its coordinate 6
    0x06, 0x00, 0x00, 0x00, 0x00, 0x00, 0x00, 0x00, 0x00, 0x00, 0x00, 0x00, 0x00, 0x00, 0x00, 0x00,
    // its origin, the one at place 0
    0x00, 0x00, 0x00, 0x00,
    // its value: an integer, 30
    0x01, 0x1e, 0x00, 0x00, 0x00, 0x00, 0x00, 0x00, 0x00, 0x00, 0x00, 0x00, 0x00, 0x00, 0x00, 0x00,
    0x00,
];

const ROW_FRAG: FragKey = FragKey {
    t1: 1,
    t2: 1,
    id: 1,
    v: 1,
};

const MERGED_FRAG: FragKey = FragKey {
    t1: 1,
    t2: 2,
    id: 3,
    v: 1,
};

const ROW_CHANGES: [Change; 21] = [
    Change(0, 0x74, 0),
    Change(3, 0, 0),
    Change(4, 6, 4),
    Change(5, 2, 5),
    Change(6, 0x82, 6),
    Change(13, 1, 6),
    Change(38, 1, 38),
    Change(38, 2, 38),
    Change(39, 2, 39),
    Change(40, 10, 40),
    Change(55, 0x80, 40),
    Change(56, 4, 56),
    Change(56, 10, 56),
    Change(72, 0, 72),
    Change(72, 2, 145),
    Change(80, 0, 80),
    Change(80, 2, 80),
    Change(84, 2, 84),
    Change(92, 2, 84),
    Change(108, 6, 108),
    Change(124, 1, 124),
];

const VALUE_CHANGES: [Change; 4] = [
    Change(128, 0, 128),
    Change(128, 3, 128),
    Change(137, 1, 128),
    Change(136, 0x80, 128),
];

const MERGED_CHANGES: [Change; 13] = [
    Change(39, 0, 39),
    Change(84, 0, 84),
    Change(108, 1, 108),
    Change(108, 0, 108),
    Change(108, 3, 108),
    Change(169, 4, 169),
    Change(169, 3, 169),
    Change(185, 0, 185),
    Change(206, 8, 206),
    Change(206, 5, 222),
    Change(222, 2, 222),
    Change(72, 2, 206),
    Change(72, 4, 243),
];

// The frame of the array; a dense one is that of a dense array of the same cells.
fn frame(dense: bool) -> Result<Frame, Fail> {
    let dim = Dim {
        name: Label::new("x").ok_or("no label")?,
        ty: ValType::I64,
        low: 0,
        high: 9,
        extent: 10,
    };
    let domain = Domain::new(&[dim]).ok().ok_or("no domain")?;
    Ok(Frame {
        dense,
        domain,
        cell: Order::Row,
        tile: Order::Row,
        capacity: 10_000,
    })
}

fn schema(alloc: Global) -> Result<Schema, Fail> {
    let mut attrs = AttrList::new(alloc);
    attrs.push(Attr {
        name: Label::new("v").ok_or("no label")?,
        ty: ValType::I64,
        nullable: false,
        fill: Val::Int(0),
    })?;
    let key = Key {
        t: 0,
        id: u128::MAX,
    };
    Ok(Schema { key, attrs })
}

#[test]
fn a_write_has_its_145_bytes(rt: HostRuntime) -> Result<(), Fail> {
    let alloc = rt.alloc();
    let (frame, schema) = (frame(false)?, schema(alloc)?);
    let piece = read_plain(alloc, &frame, &schema, ROW_FRAG, &ROW)?;
    assert_eq!(rt; piece.head.low, Coords::new(&[5]));
    assert_eq!(rt; piece.head, read_head(alloc, &frame, ROW_FRAG, &ROW)?);
    assert_eq!(rt; piece.versions.len(), 1);
    let version = piece.versions.at(0);
    assert_eq!(rt; version.key, Key { t: 1, id: 1 });
    assert_eq!(rt; version.row.as_slice(), [Val::Int(10)].as_slice());
    assert_eq!(rt; write_plain(alloc, &piece)?.as_slice(), ROW.as_slice());
    Ok(())
}

#[test]
fn a_broken_field_gives_its_offset(rt: HostRuntime) -> Result<(), Fail> {
    let alloc = rt.alloc();
    let (frame, schema) = (frame(false)?, schema(alloc)?);
    for change in &ROW_CHANGES {
        let Change(_, _, broken) = change;
        let at = broken_at(alloc, &frame, &schema, ROW_FRAG, &ROW, change)?;
        assert_eq!(rt; at, Some(*broken));
    }
    for change in &VALUE_CHANGES {
        let Change(_, _, broken) = change;
        let at = broken_at(alloc, &frame, &schema, ROW_FRAG, &ROW, change)?;
        assert_eq!(rt; at, Some(*broken));
    }
    for change in &MERGED_CHANGES {
        let Change(_, _, broken) = change;
        let at = broken_at(alloc, &frame, &schema, MERGED_FRAG, &MERGED, change)?;
        assert_eq!(rt; at, Some(*broken));
    }
    Ok(())
}

#[test]
fn a_dense_fragment_has_a_cell_once_and_each_of_its_hull(rt: HostRuntime) -> Result<(), Fail> {
    let alloc = rt.alloc();
    let (frame, schema) = (frame(true)?, schema(alloc)?);
    // as dense, the second cell at 5 is broken at its origin's place
    let twice = Change(38, 1, 185);
    let at = broken_at(alloc, &frame, &schema, MERGED_FRAG, &MERGED, &twice)?;
    assert_eq!(rt; at, Some(185));
    // a sparse one is broken where it says so
    assert_eq!(rt; read_at(alloc, &frame, &schema, ROW_FRAG, &ROW), Some(38));
    Ok(())
}

#[test]
fn a_piece_is_read_and_written_back_and_taken_from(rt: HostRuntime) -> Result<(), Fail> {
    let alloc = rt.alloc();
    let (frame, schema) = (frame(false)?, schema(alloc)?);
    let piece = read_plain(alloc, &frame, &schema, MERGED_FRAG, &MERGED)?;
    assert_eq!(rt; write_plain(alloc, &piece)?.as_slice(), MERGED.as_slice());
    let mut attrs = IndexList::new(alloc);
    attrs.push(0)?;
    let sub = SubBox {
        low: Coords::new(&[5]),
        high: Coords::new(&[5]),
    };
    let want = Want {
        sub,
        attrs,
        a: 2,
        b: 9,
    };
    let found = taken(alloc, &want, piece.versions)?;
    assert_eq!(rt; found.len(), 1);
    assert_eq!(rt; found.at(0).row.as_slice(), [Val::Int(20)].as_slice());
    Ok(())
}

// A list of one version, of the write with this timestamp, at a coordinate of the domain.
fn alone(alloc: Global, frame: &Frame, t: u64, x: i128) -> Result<VersionList, Fail>
    ensures inside { IfOk result (All (LiesInside frame.now)) }
    ensures ascends { IfOk result (VersionsAscend (global_order frame.now)) }
{
    let coords = Coords::new(&[x]);
    if frame.domain.count() != 1 || frame.domain.check(&coords).is_err() {
        return Err(Fail::from("outside"));
    }
    let mut list = VersionList::new(alloc);
    list.push(Version {
        key: Key { t, id: 0 },
        schema: Key { t: 0, id: 0 },
        coords,
        row: Row::new(alloc),
    })?;
    Ok(list)
}

#[test]
fn the_newest_version_of_each_place_is_left(rt: HostRuntime) -> Result<(), Fail> {
    let alloc = rt.alloc();
    let frame = frame(false)?;
    let lists = [
        alone(alloc, &frame, 1, 5)?,
        alone(alloc, &frame, 3, 5)?,
        alone(alloc, &frame, 2, 4)?,
    ];
    let merged = merge_all(alloc, &frame, &lists)?;
    assert_eq!(rt; merged.len(), 2);
    assert_eq!(rt; merged.at(0).key, Key { t: 2, id: 0 });
    assert_eq!(rt; merged.at(1).key, Key { t: 3, id: 0 });
    Ok(())
}
