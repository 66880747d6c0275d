//! Decoding the values of all tiles in parallel.
ghost use Rattle.std.specs.Prelude.{◌≡◌, ◌≤◌, [], ◌∷◌, length, replicate, IfOk, IfSome, OnOk};
ghost use Rattle.ts_sparse_read.specs.Decoded.{counts_of, attr_tiles, null_columns, AreOfAttr, AreDecoded, turned};

use crate::columns::tile_in;
use crate::opened::WantedTile;
use crate::ranges::Ranges;
use crate::used::is_among;
use std::alloc::Global;
use std::collections::VecDeque;
use std::thread::Threads;
use ts_base::{CountList, OutOfMemory};
use ts_column::{ColumnList, TileFault, TileViewList, decode_all};
use ts_schema::Attr;
use ts_store::SharedBytes;
use ts_table::Column;

/// The columns of some tiles: of each tile one column for each attribute.
pub type TileColumns = VecDeque<ColumnList>;

/// The values of each attribute of each tile, from the bytes that were got of the tiles' spans, one list
/// for each span; those of attributes at other places than these are null. A column of all tiles is
/// decoded at once, in as many threads as there are processors.
///
/// Where a tile is broken there are none.
#[tactic(auto, using(crate::proofs::DecodeSteps::decode_steps))]
pub fn decode_tiles<R: Threads + Sync>(
    rt: &R,
    alloc: Global,
    places: &[u32],
    attrs: &[Attr],
    tiles: &[WantedTile],
    got: &[SharedBytes],
) -> Result<TileColumns, OutOfMemory>
    requires few { length attrs.now ≤ 64 }
    ensures { IfOk result (λ decoded. AreDecoded places.now attrs.now tiles.now got.now decoded.items) }
{
    let counts = counts_of(alloc, tiles)?;
    let mut lists = no_columns(alloc, tiles)?;
    for place in 0..attrs.len() {
        let attr = place as u8;
        let read = is_among(places, attr);
        match columns_of(
            rt,
            alloc,
            read,
            attr,
            &attrs[place],
            counts.as_slice(),
            tiles,
            got,
        )? {
            Some(columns) => push_columns(&mut lists, columns)?,
            None => return Ok(VecDeque::new(alloc)),
        }
    }
    Ok(lists)
}

// How many cells each tile has.
fn counts_of(alloc: Global, tiles: &[WantedTile]) -> Result<CountList, OutOfMemory>
    ensures { IfOk result (λ counts. counts ≡ counts_of tiles.now) }
{
    let mut counts = CountList::new(alloc);
    for tile in tiles {
        counts.push(tile.cells)?;
    }
    Ok(counts)
}

// A list without a column for each tile.
fn no_columns(alloc: Global, tiles: &[WantedTile]) -> Result<TileColumns, OutOfMemory>
    ensures { IfOk result (λ lists. lists.items ≡ replicate (length tiles.now) []) }
{
    let mut lists = VecDeque::new(alloc);
    for _tile in tiles {
        lists.push_back(ColumnList::new(alloc))?;
    }
    Ok(lists)
}

// What is read of the attribute at a place, a column for each tile; where it is not read, nulls. Where a
// tile is broken there are none.
fn columns_of<R: Threads + Sync>(
    rt: &R,
    alloc: Global,
    read: bool,
    place: u8,
    attr: &Attr,
    counts: &[u64],
    tiles: &[WantedTile],
    got: &[SharedBytes],
) -> Result<Option<ColumnList>, OutOfMemory>
    requires { counts.now ≡ counts_of tiles.now }
    ensures { IfOk result (λ found. IfSome found (AreOfAttr read place attr.now tiles.now got.now)) }
{
    if !read {
        return Ok(Some(null_columns(alloc, counts)?));
    }
    let parts = attr_tiles(alloc, place, tiles, got)?;
    match decode_all(rt, alloc, attr.ty, attr.nullable, counts, parts.as_slice()) {
        Ok(columns) => Ok(Some(columns)),
        Err(TileFault::OutOfMemory) => Err(OutOfMemory),
        Err(_broken) => Ok(None),
    }
}

// Columns of so many nulls each.
fn null_columns(alloc: Global, counts: &[u64]) -> Result<ColumnList, OutOfMemory>
    ensures { IfOk result (λ columns. columns ≡ null_columns counts.now) }
{
    let mut columns = ColumnList::new(alloc);
    for count in counts {
        columns.push(Column::nulls(alloc, *count)?)?;
    }
    Ok(columns)
}

// The tile of the attribute at a place, of each of the tiles.
fn attr_tiles<'a>(
    alloc: Global,
    place: u8,
    tiles: &'a [WantedTile],
    got: &'a [SharedBytes],
) -> Result<TileViewList<'a>, OutOfMemory>
    ensures { IfOk result (λ parts. parts ≡ attr_tiles place tiles.now got.now) }
{
    let mut parts = TileViewList::new(alloc);
    let mut next = 0;
    for tile in tiles {
        let ranges = Ranges::new(tile.spans.as_slice(), &got[next..]);
        parts.push(tile_in(&ranges, place))?;
        next += (got.len() - next).min(tile.spans.as_slice().len());
    }
    Ok(parts)
}

// Each list gets one of the columns; it goes to the end, so all have their turn.
#[tactic(auto, using(crate::proofs::DecodeSteps::turned_more))]
fn push_columns(lists: &mut TileColumns, columns: ColumnList) -> Result<(), OutOfMemory>
    ensures { OnOk result (lists.new.items ≡ turned lists.old.items columns) }
{
    for column in columns.into_vec() {
        push_column(lists, column)?;
    }
    Ok(())
}

// The first list gets a column, and goes to the end.
fn push_column(lists: &mut TileColumns, column: Column) -> Result<(), OutOfMemory>
    ensures { OnOk result (lists.new.items ≡ turned lists.old.items (column ∷ [])) }
{
    match lists.pop_front() {
        Some(list) => {
            let mut list = list;
            list.push(column)?;
            lists.push_back(list)?;
            Ok(())
        }
        None => Ok(()),
    }
}
