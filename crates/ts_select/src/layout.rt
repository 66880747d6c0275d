//! The order of the cells of a batch in a layout.
ghost use Rattle.std.specs.Prelude.{◌≡◌, ◌<◌, ◌↔◌, ℤ, List, pos, length, slice_index_or, IsTrue, All};
ghost use Rattle.std.specs.List.{AllAdjacentBelow};
ghost use Rattle.std.specs.List.Sorted.{IsStrictlySortedBy};
ghost use Rattle.std.specs.Ordering.{int_cmp};
ghost use Rattle.std.specs.declared.cmp.Ordering.TheVariants.{Less};
ghost use Rattle.ts_base.specs.declared.heads.Version.{Version as AnyVersion};
ghost use Rattle.ts_domain.specs.Domains.{is_in_domain};
ghost use Rattle.ts_domain.specs.declared.orders.Order.TheVariants as order;
ghost use Rattle.ts_order.specs.Orders.{order_cmp};
ghost use Rattle.ts_schema.specs.declared.frames.Frame.{Frame as AnyFrame};
ghost use Rattle.ts_table.specs.Tables.{version_or};
ghost use Rattle.ts_model.specs.Queries.{layout_cmp};

use std::cmp::Ordering;
use ts_batch::Batch;
use ts_domain::{Layout, Order};
use ts_order::{cmp_global, cmp_plain};
use ts_schema::Frame;
use ts_table::BoxTable;

/// Whether the cells ascend in a layout as they stand, each cell once. Those of a box in the order of
/// the layout are not compared.
pub(crate) fn is_in_layout(frame: &Frame, layout: Layout, cells: &Batch) -> bool
    requires { All (λ (v : AnyVersion). IsTrue (is_in_domain frame.now.domain v.coords)) cells.now }
    ensures { IsTrue result ↔ IsStrictlySortedBy (λ (a b : AnyVersion). layout_cmp frame.now layout a.coords b.coords) cells.now }
{
    is_box_in(layout, cells) || do_neighbours_ascend(frame, layout, cells)
}

// Whether the cells are those of a box, in the order of the layout.
fn is_box_in(layout: Layout, cells: &Batch) -> bool
    ensures { IsTrue result → (frame : AnyFrame) → AllAdjacentBelow (λ (a b : AnyVersion). layout_cmp frame layout a.coords b.coords ≡ Less) cells.now (length cells.now) }
{
    match cells.as_box() {
        Some(table) => is_ordered(layout, table),
        None => false,
    }
}

// Whether the cells of a box stand in the order of the layout.
fn is_ordered(layout: Layout, table: &BoxTable) -> bool
    ensures { IsTrue result → (frame : AnyFrame) → AllAdjacentBelow (λ (a b : AnyVersion). layout_cmp frame layout a.coords b.coords ≡ Less) table.now (length table.now) }
{
    is_order_of(layout, table.parts().order)
}

// Whether an order is that of the layout.
fn is_order_of(layout: Layout, order: Order) -> bool
    ensures { IsTrue result → (frame : AnyFrame) → (a b : List ℤ) → layout_cmp frame layout a b ≡ order_cmp order a b }
{
    match (layout, order) {
        (Layout::Row, Order::Row) => true,
        (Layout::Col, Order::Col) => true,
        _ => false,
    }
}

// Whether each cell comes before the next.
fn do_neighbours_ascend(frame: &Frame, layout: Layout, cells: &Batch) -> bool
    requires { All (λ (v : AnyVersion). IsTrue (is_in_domain frame.now.domain v.coords)) cells.now }
    ensures { IsTrue result ↔ AllAdjacentBelow (λ (a b : AnyVersion). layout_cmp frame.now layout a.coords b.coords ≡ Less) cells.now (length cells.now) }
{
    for place in 1..cells.len() {
        if cmp_at(frame, layout, cells, place - 1, place) != Ordering::Less {
            return false;
        }
    }
    true
}

/// How the cells at two places stand in a layout.
pub(crate) fn cmp_at(frame: &Frame, layout: Layout, cells: &Batch, a: u64, b: u64) -> Ordering
    requires inside { All (λ (v : AnyVersion). IsTrue (is_in_domain frame.now.domain v.coords)) cells.now }
    requires first { a < length cells.now }
    requires second { b < length cells.now }
    ensures { result ≡ layout_cmp frame.now layout (version_or cells.now a).coords (version_or cells.now b).coords }
{
    match layout {
        Layout::Row => cmp_rows(cells, frame.domain.count(), a, b),
        Layout::Col => cmp_plain(Order::Col, &cells.coords(a), &cells.coords(b)),
        Layout::Global => cmp_global(
            &frame.domain,
            frame.tile,
            frame.cell,
            &cells.coords(a),
            &cells.coords(b),
        ),
    }
}

// How the cells at two places stand in row order. No coordinates are copied.
fn cmp_rows(cells: &Batch, dims: u8, a: u64, b: u64) -> Ordering
    requires first { a < length cells.now }
    requires second { b < length cells.now }
    requires first_long { length (version_or cells.now a).coords ≡ dims }
    requires second_long { length (version_or cells.now b).coords ≡ dims }
    ensures { result ≡ order_cmp order.Row (version_or cells.now a).coords (version_or cells.now b).coords }
{
    for dim in 0..dims {
        match cmp_along(cells, dim, a, b) {
            Ordering::Equal => {}
            apart => return apart,
        }
    }
    Ordering::Equal
}

// How the cells at two places stand along a dimension.
fn cmp_along(cells: &Batch, dim: u8, a: u64, b: u64) -> Ordering
    requires first { a < length cells.now }
    requires second { b < length cells.now }
    ensures { result ≡ int_cmp (slice_index_or (version_or cells.now a).coords dim (pos 0)) (slice_index_or (version_or cells.now b).coords dim (pos 0)) }
{
    number_at(cells, a, dim).cmp(&number_at(cells, b, dim))
}

/// The coordinate of the cell at a place along a dimension, or 0 where there is none.
pub(crate) fn number_at(cells: &Batch, place: u64, dim: u8) -> i128
    requires { place < length cells.now }
    ensures { result ≡ slice_index_or (version_or cells.now place).coords dim (pos 0) }
{
    match cells.coord(place, dim) {
        Some(number) => number,
        None => 0,
    }
}
