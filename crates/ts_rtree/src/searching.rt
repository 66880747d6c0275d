//! Searching a tree from its top.
ghost use Rattle.std.specs.Prelude.{◌≡◌, ◌+◌, ◌-◌, ◌*◌, ◌^◌, ◌<◌, ◌≤◌, ◌++◌, length, take, drop, All, IfOk, OnOk};
ghost use Rattle.ts_domain.specs.Boxes.{IsBox};
ghost use Rattle.ts_domain.specs.Rects.{IsLike, places_from, places_meeting};
ghost use Rattle.ts_rtree.specs.Trees.{nodes_of, upper_of, count_meeting};

use std::alloc::Global;
use ts_base::{IndexList, OutOfMemory};
use ts_domain::{RectTable, SubBox};

/// The places, in a level of `count` boxes, of those that meet a box, ascending. The level begins at
/// `start` of the table, and the levels above it follow.
///
/// It calls itself once for each level above; below 2^32 boxes there are at most ten.
pub(crate) fn found_in(
    alloc: Global,
    table: &mut RectTable,
    start: u64,
    count: u64,
    sub: &SubBox,
) -> Result<IndexList, OutOfMemory>
    requires some { 1 ≤ count }
    requires few { count < 2 ^ 32 }
    requires sub { IsBox sub.now }
    requires like { All (IsLike sub.now) table.old.boxes }
    requires levels { drop start table.old.boxes ≡ nodes_of (take count (drop start table.old.boxes)) }
    requires within { start + count ≤ length table.old.boxes }
    ensures found { IfOk result (λ found. found ≡ places_meeting sub.now (take count (drop start table.old.boxes))) }
    ensures stays { table.new.boxes ≡ table.old.boxes }
    ensures looks { table.new.looks ≤ table.old.looks + (1 + 10 * count_meeting sub.now (upper_of (take count (drop start table.old.boxes)))) }
{
    // No place in the table is 2^64 or more.
    let _boxes = table.len();
    let mut found = IndexList::new(alloc);
    if count == 1 {
        look_through(table, start, 0, 1, sub, &mut found)?;
        return Ok(found);
    }
    let above = found_in(alloc, table, start + count, (count + 9) / 10, sub)?;
    for node in above.as_slice() {
        let first = 10 * u64::from(*node);
        look_through(table, start, first, count.min(first + 10), sub, &mut found)?;
    }
    Ok(found)
}

// Looks at the boxes of a level from one place up to another, and appends the places of those that
// meet the box.
fn look_through(
    table: &mut RectTable,
    start: u64,
    first: u64,
    end: u64,
    sub: &SubBox,
    found: &mut IndexList,
) -> Result<(), OutOfMemory>
    requires few { end < 2 ^ 32 }
    requires sub { IsBox sub.now }
    requires like { All (IsLike sub.now) table.old.boxes }
    requires within { start + end ≤ length table.old.boxes }
    ensures found { OnOk result (found.new ≡ found.old ++ places_from sub.now first (take (end - first) (drop (start + first) table.old.boxes))) }
    ensures stays { table.new.boxes ≡ table.old.boxes }
    ensures looks { table.new.looks ≤ table.old.looks + (end - first) }
{
    // No place in the table is 2^64 or more.
    let _boxes = table.len();
    for place in first..end {
        if table.meets_at(start + place, sub) {
            found.push(place as u32)?;
        }
    }
    Ok(())
}
