//! Pieces and cells, and their copies.
use std::alloc::Global;
use std::test::Fail;
use ts_base::{
    Cell, Coords, Duplicate, FragKey, Head, Key, KeyList, OutOfMemory, Piece, Row, Version,
    VersionList,
};

fn made_piece(alloc: Global, cells: u64) -> Result<Piece, OutOfMemory> {
    let key = Key { t: 7, id: 1 };
    let at = Coords::new(&[3]);
    let mut origins = KeyList::new(alloc);
    origins.push(key)?;
    let mut versions = VersionList::new(alloc);
    versions.push(Version {
        key,
        schema: key,
        coords: at,
        row: Row::new(alloc),
    })?;
    let frag = FragKey {
        t1: 7,
        t2: 7,
        id: 1,
        v: 1,
    };
    Ok(Piece {
        head: Head {
            frag,
            schema: key,
            dense: false,
            consolidated: false,
            low: at,
            high: at,
            cells,
            origins,
        },
        versions,
    })
}

#[test]
fn copies_equal_their_sources(rt: HostRuntime) -> Result<(), Fail> {
    let alloc = rt.alloc();
    let piece = made_piece(alloc, 1)?;
    let twin = piece.copy(alloc)?;
    assert_eq!(rt; twin, piece);
    let other = made_piece(alloc, 2)?;
    assert!(rt; other != piece);
    let coords = Coords::new(&[3]);
    let row = Row::new(alloc);
    let cell = Cell { coords, row };
    let twin = cell.copy(alloc)?;
    assert_eq!(rt; twin, cell);
    Ok(())
}
