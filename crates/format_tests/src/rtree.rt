//! Worked rows of tables of boxes, and of trees over them.
ghost use Rattle.std.specs.Prelude.{◌≡◌, ◌<◌, ◌≤◌, ◌^◌, length, All, IfOk};
ghost use Rattle.ts_domain.specs.Boxes.{IsBox};
ghost use Rattle.ts_domain.specs.Rects.{IsLike};

use std::alloc::Global;
use std::test::Fail;
use ts_base::{Coords, OutOfMemory};
use ts_domain::{BoxList, RectTable, SubBox};
use ts_rtree::{Tree, hulls_of};

// The box of the one cell at a coordinate.
fn point(at: i128) -> SubBox
    ensures valid { IsBox result }
    ensures dims { length result.low ≡ 1 }
{
    SubBox {
        low: Coords::new(&[at]),
        high: Coords::new(&[at]),
    }
}

// The boxes of so many cells, one after the other from 0 on, which are like a box of one dimension.
#[tactic(auto, using(crate::proofs::LikeLemmas::like_more))]
fn points(alloc: Global, like: &SubBox, count: u64) -> Result<BoxList, OutOfMemory>
    requires valid { IsBox like.now }
    requires dims { length like.now.low ≡ 1 }
    ensures alike { IfOk result (λ boxes. All (IsLike like.now) boxes) }
    ensures count { IfOk result (λ boxes. length boxes ≡ count) }
{
    let mut boxes = BoxList::new(alloc);
    for at in 0..count {
        boxes.push(point(at as i128))?;
    }
    Ok(boxes)
}

#[test]
fn a_table_tells_which_box_meets_and_counts_its_looks(rt: HostRuntime) -> Result<(), Fail> {
    let sub = point(2);
    let mut table = RectTable::new(points(rt.alloc(), &sub, 3)?);
    assert_eq!(rt; (table.len(), table.looks()), (3, 0));
    assert!(rt; !table.meets_at(1, &sub));
    assert!(rt; table.meets_at(2, &sub));
    assert_eq!(rt; table.looks(), 2);
    Ok(())
}

#[test]
fn a_box_is_spelled_bound_by_bound(rt: HostRuntime) -> Result<(), Fail> {
    let sub = point(3);
    let mut boxes = BoxList::new(rt.alloc());
    boxes.push(sub)?;
    let mut spelled = [0; 32];
    spelled[0] = 3;
    spelled[16] = 3;
    let tree = tree_over(rt.alloc(), &boxes, &sub)?;
    let table = RectTable::new(boxes);
    assert_eq!(rt; table.bytes(rt.alloc())?.as_slice(), spelled.as_slice());
    assert_eq!(rt; tree.bytes(rt.alloc())?.as_slice(), spelled.as_slice());
    Ok(())
}

#[test]
fn a_tree_finds_one_of_eleven_leaves(rt: HostRuntime) -> Result<(), Fail> {
    let sub = point(10);
    let leaves = points(rt.alloc(), &sub, 11)?;
    let mut tree = tree_over(rt.alloc(), &leaves, &sub)?;
    assert_eq!(rt; tree.search(rt.alloc(), &sub)?.as_slice(), [10].as_slice());
    Ok(())
}

// The first of a thousand leaves, the node of ten and the node of a hundred over it, and the top meet
// the box; so a search may look 41 times.
#[test]
fn a_tree_looks_only_below_what_meets(rt: HostRuntime) -> Result<(), Fail> {
    let sub = point(0);
    let leaves = points(rt.alloc(), &sub, 1000)?;
    let mut tree = tree_over(rt.alloc(), &leaves, &sub)?;
    assert_eq!(rt; tree.looks(), 0);
    assert_eq!(rt; tree.search(rt.alloc(), &sub)?.as_slice(), [0].as_slice());
    assert!(rt; tree.looks() <= 41);
    Ok(())
}

#[test]
fn trees_are_the_same_by_their_boxes_alone(rt: HostRuntime) -> Result<(), Fail> {
    let sub = point(0);
    let leaves = points(rt.alloc(), &sub, 11)?;
    let mut tree = tree_over(rt.alloc(), &leaves, &sub)?;
    let other = tree_over(rt.alloc(), &leaves, &sub)?;
    tree.search(rt.alloc(), &sub)?;
    assert!(rt; tree == other);
    let fewer = points(rt.alloc(), &sub, 10)?;
    assert!(rt; tree != tree_over(rt.alloc(), &fewer, &sub)?);
    Ok(())
}

#[test]
fn hulls_are_of_so_many_boxes_each(rt: HostRuntime) -> Result<(), Fail> {
    let sub = point(0);
    let boxes = points(rt.alloc(), &sub, 5)?;
    let hulls = hulls_over(rt.alloc(), 2, boxes.as_slice(), &sub)?;
    let corners = [(0, 1), (2, 3), (4, 4)];
    assert_eq!(rt; hulls.len(), 3);
    for (hull, (low, high)) in hulls.as_slice().iter().zip(corners) {
        assert_eq!(rt; hull.low, Coords::new(&[low]));
        assert_eq!(rt; hull.high, Coords::new(&[high]));
    }
    Ok(())
}

// The tree over boxes that are like a box.
fn tree_over(alloc: Global, leaves: &BoxList, like: &SubBox) -> Result<Tree, OutOfMemory>
    requires some { 1 ≤ length leaves.now }
    requires few { length leaves.now < 2 ^ 32 }
    requires alike { All (IsLike like.now) leaves.now }
    ensures { IfOk result (λ tree. tree ≡ record { leaves = leaves.now; looks = 0 }) }
{
    Tree::build(alloc, leaves)
}

// The hulls of so many of these boxes each, which are like a box.
fn hulls_over(
    alloc: Global,
    fan: u32,
    boxes: &[SubBox],
    like: &SubBox,
) -> Result<BoxList, OutOfMemory>
    requires some { 1 ≤ length boxes.now }
    requires fan { 1 ≤ fan }
    requires alike { All (IsLike like.now) boxes.now }
{
    hulls_of(alloc, fan, boxes)
}
