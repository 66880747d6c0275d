//! The hulls of so many boxes each.
ghost use Rattle.std.specs.Prelude.{◌≡◌, ◌≤◌, length, IfOk};
ghost use Rattle.ts_domain.specs.Rects.{AllLike};
ghost use Rattle.ts_rtree.specs.Trees.{hulls_of};

use std::alloc::Global;
use ts_base::OutOfMemory;
use ts_domain::{BoxList, SubBox};

/// The hull of each `fan` consecutive boxes; the last hull is that of the rest.
///
/// So the boxes of cells give those of tiles of so many cells each, and a level of a tree gives the
/// level above.
pub fn hulls_of(alloc: Global, fan: u32, boxes: &[SubBox]) -> Result<BoxList, OutOfMemory>
    requires some { 1 ≤ length boxes.now }
    requires fan { 1 ≤ fan }
    requires alike { AllLike boxes.now }
    ensures { IfOk result (λ hulls. hulls ≡ hulls_of fan boxes.now) }
{
    let mut hulls = BoxList::new(alloc);
    let mut hull = boxes[0];
    let mut left = fan - 1;
    for place in 1..boxes.len() {
        let next = boxes[place];
        if left == 0 {
            hulls.push(hull)?;
            hull = next;
            left = fan - 1;
        } else {
            hull = hull.hull(&next);
            left -= 1;
        }
    }
    hulls.push(hull)?;
    Ok(hulls)
}
