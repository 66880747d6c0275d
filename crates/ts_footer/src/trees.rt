//! Reading the tree over the tiles of a fragment.
ghost use Rattle.std.specs.Prelude.{◌≡◌, ◌≤◌, ◌<◌, ◌*◌, ◌^◌, length, zip, IfOk, All};
ghost use Rattle.std.specs.Simd.{first_chunks};
ghost use Rattle.ts_domain.specs.Boxes.{IsBox};
ghost use Rattle.ts_domain.specs.Rects.{IsLike, rect_bytes};
ghost use Rattle.ts_wire.specs.Place.{each_at};
ghost use Rattle.ts_wire.specs.Reading.{Reads, ReadsOr};
ghost use Rattle.ts_rtree.specs.Trees.{upper_of};
ghost use Rattle.ts_footer.specs.TreeTexts.{same_at, fields_of, boxes_at, rooted, one_at, many_at, tree_at};

use crate::leaves::read_leaves;
use std::alloc::Global;
use ts_base::{ByteList, OutOfMemory};
use ts_domain::{BoxList, RectTable, SubBox};
use ts_rtree::Tree;
use ts_wire::{Cursor, Damaged, ReadFault};

/// The tree over the boxes of so many tiles, whose hull is that of the fragment.
///
/// Each bound takes 16 bytes. The boxes of the tiles come first, and then level by level those above,
/// which are computed and compared; the last one is the hull. Where there is one tile, its box is the hull.
/// `Damaged` tells the offset of the first bound that is broken or not there.
pub(crate) fn read_tree(
    alloc: Global,
    hull: &SubBox,
    count: u32,
    cursor: &mut Cursor,
) -> Result<Tree, ReadFault>
    requires hull { IsBox hull.now }
    requires some { 1 ≤ count }
    ensures { ReadsOr (λ tree. tree) (tree_at hull.now count) cursor.old cursor.new result }
{
    if count == 1 {
        read_one(alloc, hull, cursor)
    } else {
        read_many(alloc, hull, count, cursor)
    }
}

// The tree of one tile, whose box is the hull.
fn read_one(alloc: Global, hull: &SubBox, cursor: &mut Cursor) -> Result<Tree, ReadFault>
    requires hull { IsBox hull.now }
    ensures { ReadsOr (λ tree. tree) (one_at hull.now) cursor.old cursor.new result }
{
    let mut leaves = BoxList::new(alloc);
    leaves.push(*hull)?;
    let tree = tree_over(alloc, hull, &leaves)?;
    let bytes = spelling_of(alloc, hull)?;
    let text = bytes.as_slice();
    match read_same(cursor, text, text, text.len() / 16) {
        Ok(()) => Ok(tree),
        Err(damaged) => Err(ReadFault::Damaged(damaged)),
    }
}

// The tree over two tiles or more.
#[tactic(auto, using(crate::proofs::TreeReads::many_read, crate::proofs::TreeReads::many_stops), unfolding(crate::specs::TreeTexts::many_at))]
fn read_many(
    alloc: Global,
    hull: &SubBox,
    count: u32,
    cursor: &mut Cursor,
) -> Result<Tree, ReadFault>
    requires hull { IsBox hull.now }
    requires some { 2 ≤ count }
    ensures { ReadsOr (λ tree. tree) (many_at hull.now count) cursor.old cursor.new result }
{
    let leaves = read_leaves(alloc, hull, count, cursor)?;
    let tree = tree_over(alloc, hull, &leaves)?;
    read_upper(alloc, hull, count, &tree, cursor)?;
    Ok(tree)
}

// The tree over boxes that are like the hull.
fn tree_over(alloc: Global, hull: &SubBox, leaves: &BoxList) -> Result<Tree, OutOfMemory>
    requires some { 1 ≤ length leaves.now }
    requires few { length leaves.now < 2 ^ 32 }
    requires like { All (IsLike hull.now) leaves.now }
    ensures { IfOk result (λ tree. tree ≡ rooted leaves.now) }
{
    Tree::build(alloc, leaves)
}

// The spelling of a box.
#[tactic(auto, using(crate::proofs::TreeReads::one_spelled))]
fn spelling_of(alloc: Global, hull: &SubBox) -> Result<ByteList, OutOfMemory>
    requires { IsBox hull.now }
    ensures { IfOk result (λ bytes. bytes ≡ rect_bytes hull.now) }
{
    let mut boxes = BoxList::new(alloc);
    boxes.push(*hull)?;
    RectTable::new(boxes).bytes(alloc)
}

// Reads the boxes above the leaves of a tree, of which the last has to be the hull.
fn read_upper(
    alloc: Global,
    hull: &SubBox,
    count: u32,
    tree: &Tree,
    cursor: &mut Cursor,
) -> Result<(), ReadFault>
    requires hull { IsBox hull.now }
    requires like { All (IsLike hull.now) tree.now.leaves }
    requires count { length tree.now.leaves ≡ count }
    requires some { 2 ≤ count }
    ensures { ReadsOr (λ _. fields_of (upper_of tree.now.leaves)) (boxes_at hull.now (upper_of tree.now.leaves)) cursor.old cursor.new result }
{
    let bytes = tree.bytes(alloc)?;
    let top = spelling_of(alloc, hull)?;
    // The text is shorter than 2^64.
    let _size = bytes.len();
    let text = bytes.as_slice();
    let last = top.as_slice();
    let upper = &text[count as usize * last.len()..];
    let mut topped = ByteList::new(alloc);
    topped.append(&upper[..upper.len() - last.len()])?;
    topped.append(last)?;
    match read_same(cursor, upper, topped.as_slice(), upper.len() / 16) {
        Ok(()) => Ok(()),
        Err(damaged) => Err(ReadFault::Damaged(damaged)),
    }
}

// Reads fields of 16 bytes that have to be these bytes, and those besides.
#[tactic(auto, using(crate::proofs::Sames::same_loop))]
fn read_same(cursor: &mut Cursor, first: &[u8], second: &[u8], count: usize) -> Result<(), Damaged>
    requires first { length first.now ≡ 16 * count }
    requires second { length second.now ≡ 16 * count }
    ensures { Reads (λ _. first_chunks 16 count first.now) (each_at same_at (zip (first_chunks 16 count first.now) (first_chunks 16 count second.now))) cursor.old cursor.new result }
{
    for place in 0..count {
        let one = &first[16 * place..16 * place + 16];
        let other = &second[16 * place..16 * place + 16];
        match read_field(cursor, one, other) {
            Ok(()) => {}
            Err(damaged) => return Err(damaged),
        }
    }
    Ok(())
}

// Reads a field of 16 bytes that has to be both of these.
#[tactic(auto, using(crate::proofs::Sames::both_same), unfolding(crate::specs::TreeTexts::same_at))]
fn read_field(cursor: &mut Cursor, one: &[u8], other: &[u8]) -> Result<(), Damaged>
    ensures { Reads (λ _. one.now) (same_at (one.now, other.now)) cursor.old cursor.new result }
{
    let at = cursor.at();
    let bytes = cursor.bytes(16)?;
    if bytes == one && bytes == other {
        Ok(())
    } else {
        Err(Damaged { at })
    }
}
