//! Reading the boxes of tiles.
ghost use Rattle.std.specs.Prelude.{◌≡◌, ◌≤◌, ◌<◌, ◌++◌, ◌∷◌, [], length, IfOk, All};
ghost use Rattle.ts_domain.specs.Boxes.{IsBox};
ghost use Rattle.ts_domain.specs.Rects.{IsLike};
ghost use Rattle.ts_wire.specs.Place.{items_at};
ghost use Rattle.ts_wire.specs.Reading.{Reads, ReadsOr};
ghost use Rattle.ts_plain.specs.Writes.{sides_of};
ghost use Rattle.ts_footer.specs.Footers.{FitsRect};
ghost use Rattle.ts_footer.specs.TreeTexts.{IsSpan, bounds_at, leaf_at, leaves_at};

use arrayvec::ArrayVec;
use std::alloc::Global;
use ts_base::{Coords, OutOfMemory};
use ts_domain::{BoxList, SubBox};
use ts_plain::Side;
use ts_rtree::Tree;
use ts_wire::{Cursor, Damaged, ReadFault, kept};

#[tactic(auto, unfolding(crate::specs::TreeTexts::bounds_at))]
fn read_bounds(cursor: &mut Cursor) -> Result<Side, Damaged>
    ensures reads { Reads (λ side. side) bounds_at cursor.old cursor.new result }
    ensures span { IfOk result IsSpan }
{
    let low = cursor.int(16, true)?;
    let at = cursor.at();
    let high = cursor.int(16, true)?;
    let high = kept(at, high, low <= high)?;
    Ok(Side { low, high })
}

// Appends a number that is read through a reference: so its range is known.
fn push(numbers: &mut ArrayVec<i128, 8>, x: &i128)
    requires { length numbers.old.items < 8 }
    ensures { numbers.new.items ≡ numbers.old.items ++ x.now ∷ [] }
{
    numbers.push(*x);
}

// The corners of a box of so many dimensions.
#[tactic(auto, using(crate::proofs::LeafReads::corners_loop))]
fn read_corners(dims: u8, cursor: &mut Cursor) -> Result<SubBox, Damaged>
    requires some { 1 ≤ dims }
    requires few { dims ≤ 8 }
    ensures reads { Reads (λ leaf. sides_of leaf.low leaf.high) (items_at (λ _. bounds_at) dims []) cursor.old cursor.new result }
    ensures valid { IfOk result IsBox }
    ensures count { IfOk result (λ leaf. length leaf.low ≡ dims) }
{
    let mut low: ArrayVec<i128, 8> = ArrayVec::new();
    let mut high: ArrayVec<i128, 8> = ArrayVec::new();
    for dim in 0..dims {
        let side = read_bounds(cursor)?;
        push(&mut low, &side.low);
        push(&mut high, &side.high);
    }
    Ok(SubBox {
        low: Coords::new(low.as_slice()),
        high: Coords::new(high.as_slice()),
    })
}

// The box of a tile, of as many dimensions as the hull.
#[tactic(auto, using(crate::proofs::LeafReads::leaf_read), unfolding(crate::specs::TreeTexts::leaf_at))]
fn read_leaf(hull: &SubBox, cursor: &mut Cursor) -> Result<SubBox, Damaged>
    ensures reads { Reads (λ leaf. leaf) (leaf_at (length hull.now.low)) cursor.old cursor.new result }
    ensures like { IfOk result (IsLike hull.now) }
{
    let dims = hull.low.len();
    let leaf = read_corners(dims, cursor)?;
    Ok(leaf)
}

/// The boxes of so many tiles, of as many dimensions as the hull.
#[tactic(auto, using(ts_wire::proofs::Loop::items_loop, crate::proofs::LeafReads::likes_more), unfolding(crate::specs::TreeTexts::leaves_at))]
pub(crate) fn read_leaves(
    alloc: Global,
    hull: &SubBox,
    count: u32,
    cursor: &mut Cursor,
) -> Result<BoxList, ReadFault>
    ensures reads { ReadsOr (λ leaves. leaves) (leaves_at (length hull.now.low) count) cursor.old cursor.new result }
    ensures like { IfOk result (λ leaves. All (IsLike hull.now) leaves) }
    ensures count { IfOk result (λ leaves. length leaves ≡ count) }
{
    let mut leaves = BoxList::new(alloc);
    for place in 0..count {
        let leaf = read_leaf(hull, cursor)?;
        leaves.push(leaf)?;
    }
    Ok(leaves)
}

/// The boxes of the tiles, which are the leaves of the tree, read from the tree's spelling.
///
/// There are `tiles` of them, in the order of the tiles. Each has as many dimensions as `hull`, and its
/// bounds have room in 16 bytes, as in a tree that was read with that hull. The tree is not looked into.
pub fn leaves_of(
    alloc: Global,
    hull: &SubBox,
    tiles: u32,
    tree: &Tree,
) -> Result<BoxList, OutOfMemory>
    requires many { length tree.now.leaves ≡ tiles }
    requires fits { All (FitsRect hull.now) tree.now.leaves }
    ensures { IfOk result (λ leaves. leaves ≡ tree.now.leaves) }
{
    let bytes = tree.bytes(alloc)?;
    // The text is shorter than 2^64.
    let _size = bytes.len();
    let mut cursor = Cursor::new(bytes.as_slice(), 0);
    match read_leaves(alloc, hull, tiles, &mut cursor) {
        Ok(leaves) => Ok(leaves),
        Err(ReadFault::OutOfMemory) => Err(OutOfMemory),
        Err(ReadFault::Damaged(_)) => unreachable!(),
    }
}
