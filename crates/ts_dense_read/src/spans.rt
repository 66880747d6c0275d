//! Where the bytes of a space tile stand.
ghost use Rattle.std.specs.Prelude.{◌≡◌, ◌+◌, ◌*◌, ◌≤◌, map, get_or, All, IfOk};
ghost use Rattle.ts_footer.specs.declared.columns.ColumnForm.TheVariants.{Fixed, Var};
ghost use Rattle.ts_dense_read.specs.SpaceOpens.{span_from};
ghost use Rattle.ts_dense_read.specs.SpaceTakes.{HasRoom, span_behind};

use std::alloc::Global;
use ts_base::{OutOfMemory, Part};
use ts_footer::{ColumnForm, ColumnSize};
use ts_sparse_read::{Span, SpanList, UsedColumn};

// The bytes of an envelope.
const ENVELOPE: u64 = 14;

/// Where the tile at a place stands in each of these objects, where so many cells stand before it, and
/// it has so many.
pub(crate) fn spans_of(
    alloc: Global,
    before: u64,
    cells: u64,
    place: u32,
    used: &[UsedColumn],
) -> Result<SpanList, OutOfMemory>
    requires room { All (HasRoom (before + cells)) used.now }
    ensures { IfOk result (λ spans. spans ≡ map (span_behind before cells place) used.now) }
{
    let mut spans = SpanList::new(alloc);
    for column in used {
        spans.push(span_of(before, cells, place, column))?;
    }
    Ok(spans)
}

// Where the tile at a place stands in an object.
fn span_of(before: u64, cells: u64, place: u32, column: &UsedColumn) -> Span
    requires { HasRoom (before + cells) column.now }
    ensures { result ≡ span_behind before cells place column.now }
{
    match column.form {
        ColumnForm::Fixed(width) => fixed_span(before, cells, place, width, column),
        ColumnForm::Var => var_span(before, cells, place, column.part, &column.size),
    }
}

// Where the tile stands in an object of so many bytes for each cell.
#[tactic(auto, using(crate::proofs::RoomLaws::room))]
fn fixed_span(before: u64, cells: u64, place: u32, width: u8, column: &UsedColumn) -> Span
    requires { 14 + width * (before + cells) ≤ column.now.size.length }
    ensures { result ≡ span_from (Fixed width) before cells place column.now.part column.now.size }
{
    // The object is no longer than 64 bits tell.
    let _length = column.size.length;
    let width = u64::from(width);
    Span {
        part: column.part,
        from: ENVELOPE + width * before,
        count: width * cells,
    }
}

// Where the tile at a place stands in an object of texts or blobs.
fn var_span(before: u64, cells: u64, place: u32, part: Part, size: &ColumnSize) -> Span
    ensures { result ≡ span_from Var before cells place part size.now }
{
    let from = start_at(size, place as usize);
    let end = start_at(size, place as usize + 1);
    Span {
        part,
        from,
        count: end.saturating_sub(from),
    }
}

// Where the tile at a place starts, or the end of the object behind the last tile.
fn start_at(size: &ColumnSize, place: usize) -> u64
    ensures { result ≡ get_or size.now.starts place size.now.length }
{
    match size.starts.as_slice().get(place) {
        Some(start) => *start,
        None => size.length,
    }
}
