//! Where the bytes of a tile stand.
ghost use Rattle.std.specs.Prelude.{◌≡◌, ◌*◌, ◌≤◌, map, get_or, All, IfOk};
ghost use Rattle.ts_footer.specs.declared.columns.ColumnForm.TheVariants.{Fixed, Var};
ghost use Rattle.ts_footer.specs.Columns.{fixed_length};
ghost use Rattle.ts_sparse_read.specs.Fits.{HasCells};
ghost use Rattle.ts_sparse_read.specs.Used.{cells_at, span_by, span_of};

use crate::opened::{Span, SpanList, UsedColumn};
use std::alloc::Global;
use ts_base::{OutOfMemory, Part};
use ts_footer::{ColumnForm, ColumnSize};

// The bytes of an envelope.
const ENVELOPE: u64 = 14;

/// How many cells the tile at a place has, of so many in tiles of `tile`.
pub(crate) fn cells_at(tile: u64, cells: u64, place: u32) -> u64
    requires { place * tile ≤ cells }
    ensures { result ≡ cells_at tile cells place }
{
    tile.min(cells - u64::from(place) * tile)
}

/// Where the tile at a place stands in each of these objects, of so many cells in tiles of `tile`.
pub(crate) fn spans_of(
    alloc: Global,
    tile: u64,
    cells: u64,
    place: u32,
    used: &[UsedColumn],
) -> Result<SpanList, OutOfMemory>
    requires within { place * tile ≤ cells }
    requires fits { All (HasCells cells) used.now }
    ensures { IfOk result (λ spans. spans ≡ map (span_of tile cells place) used.now) }
{
    let mut spans = SpanList::new(alloc);
    for column in used {
        spans.push(span_of(tile, cells, place, column))?;
    }
    Ok(spans)
}

// Where the tile at a place stands in an object.
fn span_of(tile: u64, cells: u64, place: u32, column: &UsedColumn) -> Span
    requires within { place * tile ≤ cells }
    requires fits { HasCells cells column.now }
    ensures { result ≡ span_of tile cells place column.now }
{
    match column.form {
        ColumnForm::Fixed(width) => fixed_span(tile, cells, place, width, column),
        ColumnForm::Var => var_span(tile, cells, place, column.part, &column.size),
    }
}

// Where the tile at a place stands in an object of so many bytes for each cell.
#[tactic(auto, using(crate::proofs::SpanLaws::room))]
fn fixed_span(tile: u64, cells: u64, place: u32, width: u8, column: &UsedColumn) -> Span
    requires within { place * tile ≤ cells }
    requires fits { column.now.size.length ≡ fixed_length width cells }
    ensures { result ≡ span_by (Fixed width) tile cells place column.now.part column.now.size }
{
    // The object is no longer than 64 bits tell.
    let _length = column.size.length;
    let width = u64::from(width);
    Span {
        part: column.part,
        from: ENVELOPE + width * (u64::from(place) * tile),
        count: width * cells_at(tile, cells, place),
    }
}

// Where the tile at a place stands in an object of texts or blobs.
fn var_span(tile: u64, cells: u64, place: u32, part: Part, size: &ColumnSize) -> Span
    ensures { result ≡ span_by Var tile cells place part size.now }
{
    let from = start_at(size, place as usize);
    let end = start_at(size, place as usize + 1);
    Span {
        part,
        from,
        count: end.saturating_sub(from),
    }
}

// Where the tile at a place starts, or the end of the object behind the last tile.
fn start_at(size: &ColumnSize, place: usize) -> u64
    ensures { result ≡ get_or size.now.starts place size.now.length }
{
    match size.starts.as_slice().get(place) {
        Some(start) => *start,
        None => size.length,
    }
}
