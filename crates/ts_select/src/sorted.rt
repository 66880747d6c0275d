//! The places of cells in a layout, found by sorting.
ghost use Rattle.std.specs.Prelude.{◌≡◌, ◌<◌, ◌^◌, ℤ, List, length, map, slice_index_or, IfOk, IfSome, IsTrue, All};
ghost use Rattle.std.specs.List.{AllAdjacentBelow};
ghost use Rattle.std.specs.declared.cmp.Ordering.TheVariants.{Less};
ghost use Rattle.ts_base.specs.declared.heads.Version.{Version as AnyVersion};
ghost use Rattle.ts_domain.specs.Domains.{is_in_domain};
ghost use Rattle.ts_table.specs.Orders.{cells_cmp};
ghost use Rattle.ts_table.specs.Tables.{version_or};
ghost use Rattle.ts_model.specs.Queries.{layout_cmp};
ghost use Rattle.ts_select.specs.Sites.{AreInLayout, Climb};

use crate::layout::cmp_at;
use crate::sites::sites_of;
use std::alloc::Global;
use std::cmp::Ordering;
use ts_base::{IndexList, OutOfMemory};
use ts_batch::Batch;
use ts_domain::{Layout, Order};
use ts_schema::Frame;
use ts_table::{CellOrder, ordered_places};

/// These places in the order of their cells in a layout, or None where two of the cells have one
/// place in it.
pub(crate) fn sorted_places(
    alloc: Global,
    frame: &Frame,
    layout: Layout,
    cells: &Batch,
    places: &[u32],
) -> Result<Option<IndexList>, OutOfMemory>
    requires few { length places.now < 2 ^ 32 }
    requires inside { All (λ (v : AnyVersion). IsTrue (is_in_domain frame.now.domain v.coords)) cells.now }
    requires within { All (λ place. place < length cells.now) places.now }
    ensures { IfOk result (λ found. IfSome found (AreInLayout frame.now layout cells.now places.now)) }
{
    let sites = sites_of(alloc, frame.domain.count(), cells, places)?;
    let order = ordered_places(alloc, &frame.domain, order_of(frame, layout), &sites)?;
    let sorted = gathered(alloc, places, order.as_slice())?;
    if do_climb(frame, layout, cells, sorted.as_slice()) {
        Ok(Some(sorted))
    } else {
        Ok(None)
    }
}

// The order of cells that a layout stands for.
fn order_of(frame: &Frame, layout: Layout) -> CellOrder
    ensures { (a b : List ℤ) → cells_cmp frame.now.domain result a b ≡ layout_cmp frame.now layout a b }
{
    match layout {
        Layout::Row => CellOrder::Plain(Order::Row),
        Layout::Col => CellOrder::Plain(Order::Col),
        Layout::Global => CellOrder::Global {
            tile: frame.tile,
            cell: frame.cell,
        },
    }
}

// The places that stand at these indices.
fn gathered(alloc: Global, places: &[u32], order: &[u32]) -> Result<IndexList, OutOfMemory>
    requires { All (λ index. index < length places.now) order.now }
    ensures { IfOk result (λ list. list ≡ map (λ index. slice_index_or places.now index 0) order.now) }
{
    let mut list = IndexList::from_vec(Vec::with_capacity(alloc, order.len())?);
    for index in order {
        list.push(places[*index as usize])?;
    }
    Ok(list)
}

// Whether each of the cells at these places comes before the next in a layout.
fn do_climb(frame: &Frame, layout: Layout, cells: &Batch, places: &[u32]) -> bool
    requires inside { All (λ (v : AnyVersion). IsTrue (is_in_domain frame.now.domain v.coords)) cells.now }
    requires within { All (λ place. place < length cells.now) places.now }
    ensures { IsTrue result → Climb frame.now layout cells.now places.now (length places.now) }
{
    for next in 1..places.len() {
        let (place, other) = (places[next - 1] as u64, places[next] as u64);
        if cmp_at(frame, layout, cells, place, other) != Ordering::Less {
            return false;
        }
    }
    true
}
