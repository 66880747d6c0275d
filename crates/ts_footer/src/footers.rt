//! Reading what the metadata of a fragment stores.
ghost use Rattle.std.specs.Prelude.{◌≡◌, ◌≤◌, IfOk};
ghost use Rattle.ts_domain.specs.Boxes.{IsBox};
ghost use Rattle.ts_domain.specs.Domains.{LiesInDomain};
ghost use Rattle.ts_wire.specs.declared.kinds.Kind.TheVariants as kind;
ghost use Rattle.ts_wire.specs.Envelope.{wrapped};
ghost use Rattle.ts_wire.specs.Exact.{IsBytes};
ghost use Rattle.ts_wire.specs.Place.{whole};
ghost use Rattle.ts_wire.specs.Reading.{ReadsOr, DecodesOr};
ghost use Rattle.ts_plain.specs.Insides.{IsHull};
ghost use Rattle.ts_plain.specs.Plain.{head_by};
ghost use Rattle.ts_plain.specs.Writes.{box_of};
ghost use Rattle.ts_footer.specs.Footers.{laid_tiles_at, laid_footer_at, laid_footer_stored, laid_head_stored, footer_stored, dense_footer_stored, footer_bytes, FitsLaidFooter, FitsFooter, FitsDenseFooter};
ghost use Rattle.ts_footer.specs.Tilings.{full_in};

use crate::columns::SizeList;
use crate::sizes::read_sizes;
use crate::tilings::{Tiling, forms_in, read_laid_fields, read_tile_count, read_tree_in};
use std::alloc::Global;
use ts_base::FragKey;
use ts_domain::SubBox;
use ts_plain::{Side, StoredHead, highs, lows};
use ts_rtree::Tree;
use ts_schema::{Attr, Frame};
use ts_wire::{Cursor, Kind, ReadFault, unwrap_body};

/// What the metadata of a fragment stores, in the order of the layout.
#[derive(Debug, Drop, PartialEq, Eq)]
pub struct Footer {
    /// The fields that all objects of fragments begin with.
    pub head: StoredHead,
    /// The number of tiles.
    pub tiles: u32,
    /// What is said of the object of each column.
    pub sizes: SizeList,
    /// The tree over the boxes of the tiles, which a fragment with stored coordinates has.
    pub tree: Option<Tree>,
}

// The box between the sides of a hull.
#[tactic(auto, using(ts_plain::proofs::Insides::hull_length, crate::proofs::FooterReads::box_valid, crate::proofs::FooterReads::box_inside))]
fn hull_box(frame: &Frame, hull: &[Side]) -> SubBox
    requires { IsHull frame.now.domain hull.now }
    ensures corners { result ≡ box_of hull.now }
    ensures valid { IsBox result }
    ensures inside { LiesInDomain frame.now.domain result }
{
    let _count = frame.domain.count();
    SubBox {
        low: lows(hull),
        high: highs(hull),
    }
}

// What stands behind a head.
#[tactic(auto, unfolding(crate::specs::Footers::laid_tiles_at))]
fn read_tiles(
    alloc: Global,
    tiling: Tiling,
    frame: &Frame,
    attrs: &[Attr],
    head: &StoredHead,
    cursor: &mut Cursor,
) -> Result<(u32, SizeList, Option<Tree>), ReadFault>
    requires hull { IsHull frame.now.domain head.now.hull }
    requires some { 1 ≤ head.now.cells }
    ensures { ReadsOr (λ behind. (behind.0, (behind.1, behind.2))) (laid_tiles_at tiling frame.now attrs.now head.now) cursor.old cursor.new result }
{
    let hull = hull_box(frame, head.hull.as_slice());
    let tiles = read_tile_count(tiling, frame, head, &hull, cursor)?;
    let forms = forms_in(alloc, tiling, frame, attrs, head.consolidated)?;
    let sizes = read_sizes(alloc, forms.as_slice(), head.cells, tiles, cursor)?;
    let tree = read_tree_in(alloc, tiling, &hull, tiles, cursor)?;
    Ok((tiles, sizes, tree))
}

// Each number of a slice of bytes is a byte. The call itself does nothing.
fn are_bytes(bytes: &[u8])
    ensures { IsBytes bytes.now }
{}

// The fields that all objects of fragments begin with. A fragment has a cell.
fn read_some_head(
    alloc: Global,
    tiling: Tiling,
    frame: &Frame,
    frag: FragKey,
    cursor: &mut Cursor,
) -> Result<StoredHead, ReadFault>
    ensures reads { ReadsOr (λ head. head) (head_by (full_in tiling frame.now.dense) frame.now frag) cursor.old cursor.new result }
    ensures inside { IfOk result (λ head. IsHull frame.now.domain head.hull) }
    ensures some { IfOk result (λ head. 1 ≤ head.cells) }
{
    are_bytes(cursor.rest());
    let head = read_laid_fields(alloc, tiling, frame, frag, cursor)?;
    Ok(head)
}

#[tactic(auto, unfolding(crate::specs::Footers::laid_footer_at))]
fn read_body(
    alloc: Global,
    tiling: Tiling,
    frame: &Frame,
    attrs: &[Attr],
    frag: FragKey,
    cursor: &mut Cursor,
) -> Result<Footer, ReadFault>
    ensures reads { ReadsOr (λ footer. footer) (laid_footer_at tiling frame.now attrs.now frag) cursor.old cursor.new result }
    ensures inside { IfOk result (λ footer. IsHull frame.now.domain footer.head.hull) }
{
    let head = read_some_head(alloc, tiling, frame, frag, cursor)?;
    let (tiles, sizes, tree) = read_tiles(alloc, tiling, frame, attrs, &head, cursor)?;
    Ok(Footer {
        head,
        tiles,
        sizes,
        tree,
    })
}

// What the rest of an object spells, with nothing behind it.
#[tactic(auto, unfolding(ts_wire::specs::Place::whole))]
fn read_whole(
    alloc: Global,
    tiling: Tiling,
    frame: &Frame,
    attrs: &[Attr],
    frag: FragKey,
    cursor: &mut Cursor,
) -> Result<Footer, ReadFault>
    ensures reads { DecodesOr (λ footer. footer) (whole (laid_footer_at tiling frame.now attrs.now frag) cursor.old) result }
    ensures inside { IfOk result (λ footer. IsHull frame.now.domain footer.head.hull) }
{
    let footer = read_body(alloc, tiling, frame, attrs, frag, cursor)?;
    cursor.end()?;
    Ok(footer)
}

// What an object stores: its envelope is taken off, and its body is read whole.
#[tactic(auto, unfolding(crate::specs::Footers::laid_footer_stored, ts_wire::specs::Envelope::object_at))]
fn read_object(
    alloc: Global,
    tiling: Tiling,
    frame: &Frame,
    attrs: &[Attr],
    frag: FragKey,
    object: &[u8],
) -> Result<Footer, ReadFault>
    ensures reads { DecodesOr (λ footer. footer) (laid_footer_stored tiling frame.now attrs.now frag object.now) result }
    ensures inside { IfOk result (λ footer. IsHull frame.now.domain footer.head.hull) }
{
    let body = unwrap_body(Kind::Meta, object)?;
    let mut cursor = Cursor::new(body, 14);
    read_whole(alloc, tiling, frame, attrs, frag, &mut cursor)
}

/// What the whole object of the metadata of a fragment stores, as its cells lie in tiles.
pub(crate) fn read_laid_footer(
    alloc: Global,
    tiling: Tiling,
    frame: &Frame,
    attrs: &[Attr],
    frag: FragKey,
    object: &[u8],
) -> Result<Footer, ReadFault>
    ensures reads { DecodesOr (λ footer. footer) (laid_footer_stored tiling frame.now attrs.now frag object.now) result }
    ensures inside { IfOk result (λ footer. IsHull frame.now.domain footer.head.hull) }
    ensures found { IfOk result (λ footer. FitsLaidFooter tiling frame.now attrs.now frag footer) }
    ensures spelled { IfOk result (λ footer. object.now ≡ wrapped kind.Meta (footer_bytes footer)) }
{
    read_object(alloc, tiling, frame, attrs, frag, object)
}

/// What the whole object of the metadata of a fragment stores, under the fragment's name, in an array of
/// this frame, whose cells have these attributes. The frame may be any; the fragment is one whose
/// coordinates are stored, as those of sparse arrays.
///
/// It is as [`Meta::decode`](crate::Meta::decode) reads it in a sparse array, but in the order of the
/// layout. There is an answer exactly where the object is one that spells it (`reads`, `found`, `spelled`).
/// Else `Damaged` tells the offset in bytes, from the object's start, of the first field that the object
/// ends within or that breaks its rule. `OutOfMemory` may come for any object, and then nothing is known of
/// it.
pub fn read_footer(
    alloc: Global,
    frame: &Frame,
    attrs: &[Attr],
    frag: FragKey,
    object: &[u8],
) -> Result<Footer, ReadFault>
    ensures reads { DecodesOr (λ footer. footer) (footer_stored frame.now attrs.now frag object.now) result }
    ensures inside { IfOk result (λ footer. IsHull frame.now.domain footer.head.hull) }
    ensures found { IfOk result (λ footer. FitsFooter frame.now attrs.now frag footer) }
    ensures spelled { IfOk result (λ footer. object.now ≡ wrapped kind.Meta (footer_bytes footer)) }
{
    read_laid_footer(alloc, Tiling::Sparse, frame, attrs, frag, object)
}

/// What [`read_footer`] reads, of a fragment that lies in space tiles, as those of dense arrays. The frame
/// may be any.
///
/// The number of cells is that of the hull, and the number of tiles that of the space tiles which meet it.
/// No coordinates are stored, and there is no tree.
pub fn read_dense_footer(
    alloc: Global,
    frame: &Frame,
    attrs: &[Attr],
    frag: FragKey,
    object: &[u8],
) -> Result<Footer, ReadFault>
    ensures reads { DecodesOr (λ footer. footer) (dense_footer_stored frame.now attrs.now frag object.now) result }
    ensures inside { IfOk result (λ footer. IsHull frame.now.domain footer.head.hull) }
    ensures found { IfOk result (λ footer. FitsDenseFooter frame.now attrs.now frag footer) }
    ensures spelled { IfOk result (λ footer. object.now ≡ wrapped kind.Meta (footer_bytes footer)) }
{
    read_laid_footer(alloc, Tiling::Dense, frame, attrs, frag, object)
}

/// What the metadata of a fragment stores before the number of tiles.
#[tactic(auto, unfolding(crate::specs::Footers::laid_head_stored))]
pub(crate) fn read_stored_head(
    alloc: Global,
    tiling: Tiling,
    frame: &Frame,
    frag: FragKey,
    object: &[u8],
) -> Result<StoredHead, ReadFault>
    ensures reads { DecodesOr (λ head. head) (laid_head_stored tiling frame.now frag object.now) result }
    ensures inside { IfOk result (λ head. IsHull frame.now.domain head.hull) }
{
    let body = unwrap_body(Kind::Meta, object)?;
    let mut cursor = Cursor::new(body, 14);
    read_laid_fields(alloc, tiling, frame, frag, &mut cursor)
}
