//! The metadata of a sparse fragment.
ghost use Rattle.std.specs.Prelude.{◌≡◌, ◌++◌, ◌≤◌, ◌<◌, ◌^◌, length, All, IfOk, OnOk};
ghost use Rattle.std.specs.List.{flat_map};
ghost use Rattle.ts_domain.specs.Rects.{AllLike};
ghost use Rattle.ts_rtree.specs.Trees.{hulls_of};
ghost use Rattle.ts_wire.specs.declared.kinds.Kind.TheVariants as kind;
ghost use Rattle.ts_wire.specs.Envelope.{wrapped};
ghost use Rattle.ts_wire.specs.Numbers.{number_bytes};
ghost use Rattle.ts_piece.specs.Spots.{spotted, IsSpot};
ghost use Rattle.ts_plain.specs.Plain.{head_bytes};
ghost use Rattle.ts_plain.specs.Writes.{plain_head_for, stored_for, NamesWrites};
ghost use Rattle.ts_sparse.specs.Sparse.{leaves_of, FitsSparse};
ghost use Rattle.ts_sparse.specs.Laying.{box_of_version, boxes_of, cells_of, meta_with};

use std::alloc::Global;
use ts_base::{ByteList, Duplicate, OutOfMemory};
use ts_batch::{Batch, BatchCell};
use ts_domain::{BoxList, SubBox};
use ts_piece::{BatchPiece, PieceParts, Spot, cell_at};
use ts_plain::write_head;
use ts_rtree::Tree;
use ts_schema::{Frame, Schema};
use ts_wire::{Kind, Scribe};

/// The object of the metadata, in which the sizes of the columns' objects are these.
#[tactic(auto, unfolding(crate::specs::Laying::meta_with))]
pub(crate) fn meta_object(
    alloc: Global,
    frame: &Frame,
    schema: &Schema,
    piece: &BatchPiece,
    sizes: &[u64],
) -> Result<ByteList, OutOfMemory>
    requires names { NamesWrites piece.now }
    requires fits { FitsSparse frame.now schema.now.attrs piece.now.head.frag (stored_for piece.now) }
    ensures { IfOk result (λ bytes. bytes ≡ wrapped kind.Meta (meta_with frame.now piece.now sizes.now)) }
{
    let leaves = leaves_of(alloc, frame, schema, piece)?;
    let tree = Tree::build(alloc, &leaves)?;
    let mut scribe = Scribe::new(alloc);
    write_piece_head(alloc, &mut scribe, piece)?;
    scribe.u32(leaves.len() as u32)?;
    write_sizes(&mut scribe, sizes)?;
    scribe.bytes(tree.bytes(alloc)?.as_slice())?;
    scribe.into_object(Kind::Meta)
}

// Writes what stands before the sizes, where the number of cells is that of the versions.
fn write_piece_head(
    alloc: Global,
    scribe: &mut Scribe,
    piece: &BatchPiece,
) -> Result<(), OutOfMemory>
    requires corners { length piece.now.head.high ≡ length piece.now.head.low }
    requires few { length piece.now.head.origins < 2 ^ 32 }
    ensures { OnOk result (scribe.new ≡ scribe.old ++ head_bytes (plain_head_for piece.now)) }
{
    let mut head = piece.head().copy(alloc)?;
    head.cells = piece.len();
    write_head(scribe, &head)
}

/// Writes sizes in eight bytes each.
pub fn write_sizes(scribe: &mut Scribe, sizes: &[u64]) -> Result<(), OutOfMemory>
    ensures { OnOk result (scribe.new ≡ scribe.old ++ flat_map (number_bytes 8) sizes.now) }
{
    for size in sizes {
        scribe.u64(*size)?;
    }
    Ok(())
}

// The boxes of the tiles.
fn leaves_of(
    alloc: Global,
    frame: &Frame,
    schema: &Schema,
    piece: &BatchPiece,
) -> Result<BoxList, OutOfMemory>
    requires { FitsSparse frame.now schema.now.attrs piece.now.head.frag (stored_for piece.now) }
    ensures leaves { IfOk result (λ leaves. leaves ≡ leaves_of frame.now.capacity (cells_of piece.now)) }
    ensures alike { IfOk result AllLike }
    ensures some { IfOk result (λ leaves. 1 ≤ length leaves) }
{
    let PieceParts { batches, spots } = piece.parts();
    tile_boxes(alloc, frame.capacity, batches, spots)
}

// The boxes of the tiles of so many cells each. It makes no list of the boxes of the cells.
fn tile_boxes(
    alloc: Global,
    tile: u32,
    batches: &[Batch],
    spots: &[Spot],
) -> Result<BoxList, OutOfMemory>
    requires tile { 1 ≤ tile }
    requires some { 1 ≤ length spots.now }
    requires there { All (IsSpot batches.now) spots.now }
    requires alike { AllLike (boxes_of (spotted batches.now spots.now)) }
    ensures { IfOk result (λ leaves. leaves ≡ hulls_of tile (boxes_of (spotted batches.now spots.now))) }
{
    let mut leaves = BoxList::new(alloc);
    let mut hull = cell_box(&cell_at(batches, spots[0]));
    let mut left = tile - 1;
    for place in 1..spots.len() {
        let next = cell_box(&cell_at(batches, spots[place]));
        if left == 0 {
            leaves.push(hull)?;
            hull = next;
            left = tile - 1;
        } else {
            hull = hull.hull(&next);
            left -= 1;
        }
    }
    leaves.push(hull)?;
    Ok(leaves)
}

// The box of one cell.
fn cell_box(version: &BatchCell<'_>) -> SubBox
    ensures { result ≡ box_of_version version.now }
{
    let coords = version.coords();
    SubBox {
        low: coords,
        high: coords,
    }
}
