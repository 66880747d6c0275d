//! The piece of a write: its versions in global order, between their corners.
ghost use Rattle.std.specs.Prelude.{◌≡◌, ◌≤◌, ◌<◌, ◌^◌, List, length, IfOk, IsTrue, All};
ghost use Rattle.ts_base.specs.declared.heads.Version.{Version as AnyVersion};
ghost use Rattle.ts_base.specs.declared.values.Val.{Val as AnyVal};
ghost use Rattle.ts_domain.specs.Boxes.{IsBox, cells_of};
ghost use Rattle.ts_domain.specs.Domains.{is_in_domain, LiesInDomain};
ghost use Rattle.ts_order.specs.Orders.{coords_in_order};
ghost use Rattle.ts_schema.specs.FrameTexts.{IsFrame};
ghost use Rattle.ts_model.specs.Commands.{cells_at, low_of_cells, high_of_cells, piece_of};
ghost use Rattle.ts_writer.specs.Heads.{head_in, head_over};
ghost use Rattle.ts_writer.specs.Tables.{AreGlobal, AreOf, cells_in};

use crate::columns::ColumnList;
use crate::spots::spots_of;
use std::alloc::Global;
use ts_base::{Coords, FragKey, Head, IndexList, KeyList, OutOfMemory};
use ts_batch::Batch;
use ts_domain::{Domain, Order, SubBox};
use ts_piece::BatchPiece;
use ts_schema::Frame;
use ts_table::{BoxTable, Origin, Table};

/// The piece of a write of this origin, whose versions are those of a table.
pub(crate) fn piece_of(
    alloc: Global,
    frame: &Frame,
    origin: Origin,
    table: Table,
    places: IndexList,
) -> Result<BatchPiece, OutOfMemory>
    requires some { 1 ≤ length table }
    requires inside { All (λ (v : AnyVersion). IsTrue (is_in_domain frame.now.domain v.coords)) table }
    requires own { AreOf origin.key origin.schema table }
    requires global { AreGlobal frame.now table places }
    ensures { IfOk result (λ p. p ≡ piece_of frame.now (record { key = origin.key; schema = origin.schema; cells = cells_in table })) }
{
    let head = head_of(alloc, frame, origin, &table)?;
    BatchPiece::of_table(alloc, head, table, places)
}

/// The piece of a write of this origin to a box. There is a column for each attribute, with a value for
/// each cell of the box in the order of the layout.
pub(crate) fn piece_over(
    alloc: Global,
    frame: &Frame,
    origin: Origin,
    layout: Order,
    sub: SubBox,
    rows: ColumnList,
) -> Result<BatchPiece, OutOfMemory>
    requires frame { IsFrame frame.now }
    requires valid { IsBox sub }
    requires inside { LiesInDomain frame.now.domain sub }
    requires few { cells_of sub < 2 ^ 32 }
    requires long { All (λ (vals : List AnyVal). length vals ≡ cells_of sub) rows }
    ensures { IfOk result (λ p. p ≡ piece_of frame.now (record { key = origin.key; schema = origin.schema; cells = cells_at (coords_in_order layout sub) rows 0 })) }
{
    let count = sub.cells();
    let head = head_over(alloc, frame, origin, &sub, count)?;
    let spots = spots_of(alloc, frame, layout, &sub)?;
    let table = BoxTable::of(sub, layout, origin, rows.into_vec());
    let batches = vec![in alloc; Batch::of_box(table)]?;
    Ok(BatchPiece::of(head, batches, spots))
}

// The head of the piece.
fn head_of(alloc: Global, frame: &Frame, origin: Origin, table: &Table) -> Result<Head, OutOfMemory>
    requires some { 1 ≤ length table.now }
    requires inside { All (λ (v : AnyVersion). IsTrue (is_in_domain frame.now.domain v.coords)) table.now }
    ensures { IfOk result (λ head. head ≡ head_in frame.now (record { key = origin.key; schema = origin.schema; cells = cells_in table.now })) }
{
    let hull = hull_of(&frame.domain, table);
    head_over(alloc, frame, origin, &hull, table.len())
}

// The head of a piece of so many cells in this hull.
fn head_over(
    alloc: Global,
    frame: &Frame,
    origin: Origin,
    hull: &SubBox,
    cells: u64,
) -> Result<Head, OutOfMemory>
    ensures { IfOk result (λ head. head ≡ head_over frame.now origin hull.now cells) }
{
    let mut origins = KeyList::new(alloc);
    origins.push(origin.key)?;
    Ok(Head {
        frag: FragKey {
            t1: origin.key.t,
            t2: origin.key.t,
            id: origin.key.id,
            v: 1,
        },
        schema: origin.schema,
        dense: frame.dense,
        consolidated: false,
        low: hull.low,
        high: hull.high,
        cells,
        origins,
    })
}

// The least box that has the cells of all versions.
fn hull_of(domain: &Domain, table: &Table) -> SubBox
    requires some { 1 ≤ length table.now }
    requires inside { All (λ (v : AnyVersion). IsTrue (is_in_domain domain.now v.coords)) table.now }
    ensures low { result.low ≡ low_of_cells (cells_in table.now) }
    ensures high { result.high ≡ high_of_cells (cells_in table.now) }
{
    let mut hull = box_of(&table.coords(0));
    for place in 0..table.len() {
        let at = table.coords(place);
        if hull.contains(&at) {
            continue;
        }
        hull = hull.hull(&box_of(&at));
    }
    hull
}

// The box of one cell.
fn box_of(at: &Coords) -> SubBox
    ensures value { result ≡ record { low = at.now; high = at.now } }
    ensures valid { IsBox result }
{
    SubBox {
        low: *at,
        high: *at,
    }
}
