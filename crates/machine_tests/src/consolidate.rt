//! Worked merges of the fragments of two writes or consolidations.
ghost use Rattle.std.specs.Prelude.{◌≡◌, All, IfOk, IsTrue, length};
ghost use Rattle.ts_domain.specs.Domains.{is_in_domain};
ghost use Rattle.ts_model.specs.Merging.{HasBox};
ghost use Rattle.ts_base.specs.declared.heads.Version.{Version as AnyVersion};

use std::alloc::Global;
use std::test::Fail;
use ts_base::{
    Coords, FragKey, Head, HeadList, Key, KeyList, Label, OutOfMemory, Piece, Row, Val, ValType,
    Version, VersionList,
};
use ts_batch::{Batch, Batches, BatchesList};
use ts_consolidate::{Unmerged, merge_pieces};
use ts_domain::{Dim, Domain, Order};
use ts_schema::Frame;

// A version: the timestamp of its write, its coordinate and its value.
#[derive(Clone, Copy)]
struct Laid(u64, i128, i128);

// A fragment: the timestamps of its origins, its box and its versions.
#[derive(Clone, Copy)]
struct Fragment<'a> {
    origins: &'a [u64],
    low: i128,
    high: i128,
    versions: &'a [Laid],
}

// Two fragments of an array, and the one that they are merged into.
#[derive(Clone, Copy)]
struct Merge<'a> {
    shows: &'a str,
    dense: bool,
    first: Fragment<'a>,
    second: Fragment<'a>,
    merged: Fragment<'a>,
}

// A key whose identifier is its timestamp.
fn key(t: u64) -> Key {
    Key { t, id: t as u128 }
}

// An array with the dimension x from 0 to 9.
fn frame(dense: bool) -> Result<Frame, Fail>
    ensures { IfOk result (λ frame. length frame.domain ≡ 1) }
{
    let x = Dim {
        name: Label::new("x").ok_or("no label")?,
        ty: ValType::I64,
        low: 0,
        high: 9,
        extent: 4,
    };
    Ok(Frame {
        dense,
        domain: Domain::new(&[x]).ok().ok_or("no domain")?,
        cell: Order::Row,
        tile: Order::Row,
        capacity: 4,
    })
}

// The number of cells that the head of a fragment counts: in a dense array those of its box.
fn cells_of(dense: bool, fragment: &Fragment<'_>) -> Result<u64, Fail> {
    if !dense {
        return Ok(fragment.versions.len() as u64);
    }
    if fragment.low < 0 || fragment.low > fragment.high || fragment.high > 9 {
        return Err("no box".into());
    }
    Ok((fragment.high - fragment.low + 1) as u64)
}

// The head of a fragment with this identifier.
fn head_of(alloc: Global, frame: &Frame, id: u128, fragment: &Fragment<'_>) -> Result<Head, Fail>
    requires { length frame.now.domain ≡ 1 }
    ensures { IfOk result (HasBox frame.now) }
{
    let Some(first) = fragment.origins.first() else {
        return Err("no origin".into());
    };
    if fragment.low > fragment.high {
        return Err("no box".into());
    }
    let mut origins = KeyList::new(alloc);
    let mut last = *first;
    for t in fragment.origins {
        origins.push(key(*t))?;
        last = *t;
    }
    Ok(Head {
        frag: FragKey {
            t1: *first,
            t2: last,
            id,
            v: 1,
        },
        schema: key(0),
        dense: frame.dense,
        consolidated: fragment.origins.len() > 1,
        low: Coords::new(&[fragment.low]),
        high: Coords::new(&[fragment.high]),
        cells: cells_of(frame.dense, fragment)?,
        origins,
    })
}

// The versions of a fragment.
#[tactic(auto, using(crate::proofs::Pushed::all_pushed))]
fn versions_of(alloc: Global, frame: &Frame, fragment: &Fragment<'_>) -> Result<VersionList, Fail>
    requires { length frame.now.domain ≡ 1 }
    ensures { IfOk result (All (λ (version : AnyVersion). IsTrue (is_in_domain frame.now.domain version.coords))) }
{
    let mut versions = VersionList::new(alloc);
    for laid in fragment.versions {
        let version = version_of(alloc, laid)?;
        if frame.domain.check(&version.coords).is_err() {
            return Err("outside".into());
        }
        versions.push(version)?;
    }
    Ok(versions)
}

fn version_of(alloc: Global, laid: &Laid) -> Result<Version, OutOfMemory>
    ensures { IfOk result (λ version. length version.coords ≡ 1) }
{
    let Laid(t, x, value) = *laid;
    let mut row = Row::new(alloc);
    row.push(Val::Int(value))?;
    Ok(Version {
        key: key(t),
        schema: key(0),
        coords: Coords::new(&[x]),
        row,
    })
}

// What the two fragments are merged into, with the identifier 9.
#[tactic(auto, using(crate::proofs::Pushed::all_pushed))]
fn merged(alloc: Global, frame: &Frame, merge: &Merge<'_>) -> Result<Result<Piece, Unmerged>, Fail>
    requires { length frame.now.domain ≡ 1 }
{
    let first = head_of(alloc, frame, 7, &merge.first)?;
    let mut others = HeadList::new(alloc);
    others.push(head_of(alloc, frame, 8, &merge.second)?)?;
    let mut got = BatchesList::new(alloc);
    got.push(batches_of(alloc, frame, &merge.first)?)?;
    got.push(batches_of(alloc, frame, &merge.second)?)?;
    match merge_pieces(alloc, frame, 9, &first, others.as_slice(), got) {
        Ok(piece) => Ok(Ok(piece.cells(alloc)?.to_rows(alloc)?)),
        Err(cause) => Ok(Err(cause)),
    }
}

// The versions of a fragment, as one batch.
fn batches_of(alloc: Global, frame: &Frame, fragment: &Fragment<'_>) -> Result<Batches, Fail>
    requires { length frame.now.domain ≡ 1 }
    ensures { IfOk result (All (λ (version : AnyVersion). IsTrue (is_in_domain frame.now.domain version.coords))) }
{
    let batch = Batch::of_rows(versions_of(alloc, frame, fragment)?);
    Ok(Batches::of(alloc, batch)?)
}

// The piece of the fragment that is wanted.
fn wanted(alloc: Global, frame: &Frame, merge: &Merge<'_>) -> Result<Piece, Fail>
    requires { length frame.now.domain ≡ 1 }
{
    Ok(Piece {
        head: head_of(alloc, frame, 9, &merge.merged)?,
        versions: versions_of(alloc, frame, &merge.merged)?,
    })
}

#[test]
fn fragments_are_merged(rt: HostRuntime) -> Result<(), Fail> {
    let alloc = rt.alloc();
    let merges = [
        Merge {
            shows: "a dense array keeps the newest of each cell",
            dense: true,
            first: Fragment {
                origins: &[1],
                low: 0,
                high: 1,
                versions: &[Laid(1, 0, 1), Laid(1, 1, 1)],
            },
            second: Fragment {
                origins: &[5],
                low: 1,
                high: 2,
                versions: &[Laid(5, 1, 5), Laid(5, 2, 5)],
            },
            merged: Fragment {
                origins: &[1, 5],
                low: 0,
                high: 2,
                versions: &[Laid(1, 0, 1), Laid(5, 1, 5), Laid(5, 2, 5)],
            },
        },
        Merge {
            shows: "the head of a dense array counts holes too",
            dense: true,
            first: Fragment {
                origins: &[1],
                low: 0,
                high: 1,
                versions: &[Laid(1, 0, 1), Laid(1, 1, 1)],
            },
            second: Fragment {
                origins: &[5],
                low: 4,
                high: 4,
                versions: &[Laid(5, 4, 5)],
            },
            merged: Fragment {
                origins: &[1, 5],
                low: 0,
                high: 4,
                versions: &[Laid(1, 0, 1), Laid(1, 1, 1), Laid(5, 4, 5)],
            },
        },
        Merge {
            shows: "cells of two writes, the later one first",
            dense: false,
            first: Fragment {
                origins: &[2],
                low: 2,
                high: 2,
                versions: &[Laid(2, 2, 2)],
            },
            second: Fragment {
                origins: &[1],
                low: 1,
                high: 1,
                versions: &[Laid(1, 1, 1)],
            },
            merged: Fragment {
                origins: &[1, 2],
                low: 1,
                high: 2,
                versions: &[Laid(1, 1, 1), Laid(2, 2, 2)],
            },
        },
        Merge {
            shows: "a sparse array keeps every version of a cell",
            dense: false,
            first: Fragment {
                origins: &[1],
                low: 5,
                high: 5,
                versions: &[Laid(1, 5, 10)],
            },
            second: Fragment {
                origins: &[2],
                low: 5,
                high: 5,
                versions: &[Laid(2, 5, 20)],
            },
            merged: Fragment {
                origins: &[1, 2],
                low: 5,
                high: 5,
                versions: &[Laid(1, 5, 10), Laid(2, 5, 20)],
            },
        },
        Merge {
            shows: "what two consolidations share comes once",
            dense: false,
            first: Fragment {
                origins: &[1, 2],
                low: 1,
                high: 2,
                versions: &[Laid(1, 1, 1), Laid(2, 2, 2)],
            },
            second: Fragment {
                origins: &[2, 3],
                low: 2,
                high: 2,
                versions: &[Laid(2, 2, 2), Laid(3, 2, 3)],
            },
            merged: Fragment {
                origins: &[1, 2, 3],
                low: 1,
                high: 2,
                versions: &[Laid(1, 1, 1), Laid(2, 2, 2), Laid(3, 2, 3)],
            },
        },
    ];
    for merge in &merges {
        let frame = frame(merge.dense)?;
        let wanted = wanted(alloc, &frame, merge)?;
        let shows = merge.shows;
        assert_eq!(rt; merged(alloc, &frame, merge)?, Ok(wanted), "{shows}");
    }
    Ok(())
}
