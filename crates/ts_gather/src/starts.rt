//! Where the runs of a box stand in another box.
ghost use Rattle.std.specs.Prelude.{◌≡◌, ◌+◌, ◌-◌, ◌*◌, ◌^◌, ◌<◌, ◌≤◌, ◌&&◌, ◌++◌, length, map, IfOk, IsTrue, OnOk, pos, slice_index_or};
ghost use Rattle.std.specs.List.{range_with_len};
ghost use Rattle.ts_domain.specs.Bounds.{count_between};
ghost use Rattle.ts_domain.specs.Boxes.{IsBox, is_in_box, cells_of, Covers};
ghost use Rattle.ts_order.specs.Orders.{dim_at};
ghost use Rattle.ts_gather.specs.Parts.{run_in, starts_over};

use crate::sides::{rank_dim, side_at};
use std::alloc::Global;
use ts_base::OutOfMemory;
use ts_domain::{Order, SubBox};
use ts_order::{coords_at, position_of};

/// The number of cells of a run: of those that follow one another along the dimension that changes
/// fastest.
pub fn run_in(sub: &SubBox, order: Order) -> u64
    requires valid { IsBox sub.now }
    requires few { cells_of sub.now < 2 ^ 64 - 1 }
    ensures value { result ≡ run_in order sub.now }
    ensures some { 0 < result }
    ensures dims { 1 ≤ length sub.now.low }
{
    let count = sub.low.len() as usize;
    let dim = rank_dim(order, count, count - 1);
    side_at(sub.low.as_slice(), sub.high.as_slice(), dim)
}

/// The places in a box at which the runs of a box within it begin, run after run. The cells of a run
/// follow one another in both boxes.
pub fn run_starts(
    alloc: Global,
    outer: &SubBox,
    inner: &SubBox,
    order: Order,
) -> Result<Vec<u64>, OutOfMemory>
    requires valid { IsBox inner.now }
    requires within { Covers outer.now inner.now }
    requires few { cells_of outer.now < 2 ^ 64 - 1 }
    ensures { IfOk result (λ starts. starts.items ≡ starts_over order outer.now inner.now) }
{
    let run = run_in(inner, order);
    let rows = rows_in(inner, order);
    let apart = run_in(outer, order);
    let runs = inner.cells() / run;
    let mut starts = Vec::with_capacity(alloc, runs as usize)?;
    for block in 0..runs / rows {
        let first = coords_at(inner, order, block * rows * run);
        push_rows(&mut starts, position_of(outer, order, &first), apart, rows)?;
    }
    Ok(starts)
}

// How many runs follow one another along the dimension that changes next.
fn rows_in(sub: &SubBox, order: Order) -> u64
    requires valid { IsBox sub.now }
    requires few { cells_of sub.now < 2 ^ 64 - 1 }
    ensures one { length sub.now.low ≤ 1 → result ≡ 1 }
    ensures more { 2 ≤ length sub.now.low → let dim = dim_at order (length sub.now.low) (length sub.now.low - 2) in result ≡ count_between (slice_index_or sub.now.low dim (pos 0)) (slice_index_or sub.now.high dim (pos 0)) }
    ensures some { 0 < result }
{
    let count = sub.low.len() as usize;
    if count < 2 {
        return 1;
    }
    let dim = rank_dim(order, count, count - 2);
    side_at(sub.low.as_slice(), sub.high.as_slice(), dim)
}

// Appends so many places, each so far from the one before.
fn push_rows(starts: &mut Vec<u64>, first: u64, apart: u64, rows: u64) -> Result<(), OutOfMemory>
    requires { first + (rows - 1) * apart < 2 ^ 64 }
    ensures { OnOk result (starts.new.items ≡ starts.old.items ++ map (λ row. first + row * apart) (range_with_len 0 rows)) }
{
    for row in 0..rows {
        starts.push(first + row * apart)?;
    }
    Ok(())
}

/// Whether a box has both corners of another, and so all of its cells.
#[tactic(auto, using(crate::proofs::PartLaws::covered_by_corners))]
pub fn does_cover(outer: &SubBox, inner: &SubBox) -> bool
    ensures corners { result ≡ (is_in_box outer.now inner.now.low && is_in_box outer.now inner.now.high) }
    ensures cells { IsTrue result → Covers outer.now inner.now }
{
    outer.contains(&inner.low) && outer.contains(&inner.high)
}
