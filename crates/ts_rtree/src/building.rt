//! Building the levels of a tree.
ghost use Rattle.std.specs.Prelude.{◌≡◌, ◌≤◌, ◌++◌, length, IfOk, OnOk};
ghost use Rattle.ts_domain.specs.Rects.{AllLike};
ghost use Rattle.ts_rtree.specs.Trees.{nodes_of};

use crate::hulls::hulls_of;
use std::alloc::Global;
use ts_base::{Duplicate, OutOfMemory};
use ts_domain::{BoxList, SubBox};

/// The leaves, and then level by level the boxes above, each the hull of ten, until a level has one.
pub(crate) fn all_nodes(alloc: Global, leaves: &BoxList) -> Result<BoxList, OutOfMemory>
    requires some { 1 ≤ length leaves.now }
    requires alike { AllLike leaves.now }
    ensures { IfOk result (λ boxes. boxes ≡ nodes_of leaves.now) }
{
    let mut boxes = leaves.copy(alloc)?;
    let mut start = 0;
    while boxes.len() as usize - start > 1 {
        let above = hulls_of(alloc, 10, &boxes.as_slice()[start..])?;
        start = boxes.len() as usize;
        append(&mut boxes, above.as_slice())?;
    }
    Ok(boxes)
}

// Appends boxes.
fn append(boxes: &mut BoxList, more: &[SubBox]) -> Result<(), OutOfMemory>
    ensures { OnOk result (boxes.new ≡ boxes.old ++ more.now) }
{
    for next in more {
        boxes.push(*next)?;
    }
    Ok(())
}
