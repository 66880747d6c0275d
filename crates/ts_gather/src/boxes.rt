//! Tables of boxes, from columns that have values of all cells of another box.
ghost use Rattle.std.specs.Prelude.{◌≡◌, ◌-◌, ◌^◌, ◌<◌, List, [], length, map, slice_index_or, IfOk};
ghost use Rattle.std.specs.List.{All};
ghost use Rattle.ts_base.specs.declared.values.Val.{Val as AnyVal};
ghost use Rattle.ts_domain.specs.Boxes.{IsBox, cells_of, Covers};
ghost use Rattle.ts_order.specs.Orders.{coords_in_order};
ghost use Rattle.ts_gather.specs.Rows.{chosen};
ghost use Rattle.ts_gather.specs.Parts.{places_over, vals_over, version_over};

use crate::chosen::{are_ascending, moved_columns};
use crate::parts::part_over;
use std::alloc::Global;
use ts_base::OutOfMemory;
use ts_domain::{Order, SubBox};
use ts_table::{BoxTable, Column, Origin};

/// The versions that one write laid in the cells of a box, which lies in another. Of the values they have
/// those of the columns at the places `attrs`, null where there is none. Columns have the values of all
/// cells of the other box, both in row or column order.
///
/// Columns are moved where the boxes are one and `attrs` ascend. Else they are copied.
pub fn box_of(
    alloc: Global,
    origin: Origin,
    attrs: &[u32],
    vals: Vec<Column>,
    outer: &SubBox,
    inner: SubBox,
    order: Order,
) -> Result<BoxTable, OutOfMemory>
    requires valid { IsBox inner }
    requires within { Covers outer.now inner }
    requires few { cells_of outer.now < 2 ^ 64 - 1 }
    requires long { All (λ (column : List AnyVal). length column ≡ cells_of outer.now) vals.items }
    ensures { IfOk result (λ table. table ≡ map (version_over origin attrs.now order outer.now vals.items) (coords_in_order order inner)) }
{
    let columns = columns_over(alloc, attrs, vals, outer, &inner, order)?;
    Ok(BoxTable::of(inner, order, origin, columns))
}

// The columns at these places, of the cells of a box that lies in another.
fn columns_over(
    alloc: Global,
    attrs: &[u32],
    vals: Vec<Column>,
    outer: &SubBox,
    inner: &SubBox,
    order: Order,
) -> Result<Vec<Column>, OutOfMemory>
    requires valid { IsBox inner.now }
    requires within { Covers outer.now inner.now }
    requires few { cells_of outer.now < 2 ^ 64 - 1 }
    requires long { All (λ (column : List AnyVal). length column ≡ cells_of outer.now) vals.items }
    ensures { IfOk result (λ columns. columns.items ≡ chosen attrs.now (places_over order outer.now inner.now) vals.items) }
{
    if inner == outer && are_ascending(attrs, vals.len()) {
        moved_columns(alloc, attrs, vals)
    } else {
        copied_columns(alloc, attrs, vals.as_slice(), outer, inner, order)
    }
}

// The columns at these places, copied.
fn copied_columns(
    alloc: Global,
    attrs: &[u32],
    vals: &[Column],
    outer: &SubBox,
    inner: &SubBox,
    order: Order,
) -> Result<Vec<Column>, OutOfMemory>
    requires valid { IsBox inner.now }
    requires within { Covers outer.now inner.now }
    requires few { cells_of outer.now < 2 ^ 64 - 1 }
    requires long { All (λ (column : List AnyVal). length column ≡ cells_of outer.now) vals.now }
    ensures { IfOk result (λ columns. columns.items ≡ chosen attrs.now (places_over order outer.now inner.now) vals.now) }
{
    let mut columns = Vec::new(alloc);
    for attr in attrs {
        columns.push(copied_column(alloc, *attr, vals, outer, inner, order)?)?;
    }
    Ok(columns)
}

// The column at a place, copied.
fn copied_column(
    alloc: Global,
    attr: u32,
    vals: &[Column],
    outer: &SubBox,
    inner: &SubBox,
    order: Order,
) -> Result<Column, OutOfMemory>
    requires valid { IsBox inner.now }
    requires within { Covers outer.now inner.now }
    requires few { cells_of outer.now < 2 ^ 64 - 1 }
    requires long { All (λ (column : List AnyVal). length column ≡ cells_of outer.now) vals.now }
    ensures { IfOk result (λ column. column ≡ vals_over order outer.now inner.now (slice_index_or vals.now attr [])) }
{
    let place = attr as usize;
    if place < vals.len() {
        part_over(alloc, &vals[place], outer, inner, order)
    } else {
        Column::nulls(alloc, inner.cells())
    }
}
