//! The metadata of fragments in tiles.
ghost use Rattle.std.specs.Prelude.{◌≡◌, ℕ, ◌^◌, ◌<◌, List, [], ◌++◌, length, map, Ok, IfOk, OnOk};
ghost use Rattle.ts_wire.specs.declared.kinds.Kind.TheVariants as kind;
ghost use Rattle.ts_wire.specs.Envelope.{wrapped, IsCut};
ghost use Rattle.ts_wire.specs.Reading.{DecodesOr, IsRead, IsDamagedAt};
ghost use Rattle.ts_schema.specs.declared.attrs.Attr.{Attr as AnyAttr};
ghost use Rattle.ts_plain.specs.Insides.{IsHull};
ghost use Rattle.ts_plain.specs.Pieces.{BreaksSo};
ghost use Rattle.ts_footer.specs.declared.metas.Meta.{Meta as AnyMeta};
ghost use Rattle.ts_footer.specs.Footers.{footer_bytes};
ghost use Rattle.ts_footer.specs.Metas.{some_before, starts_of, meta_of, laid_meta_in, laid_head_in, meta_in, head_in, dense_meta_in, dense_head_in, meta_by, footer_by, IsLaidMetaObject, IsMetaObject, IsDenseMetaObject, IsMetaObjectBy, HasMetaObjectBy, IsWritableBy};

use crate::columns::{ColumnSize, SizeList};
use crate::footers::{Footer, read_laid_footer, read_stored_head};
use crate::tilings::{Tiling, tiling_of};
use crate::writing::write_meta;
use std::alloc::Global;
use ts_base::{ByteList, CountList, FragKey, Head, LengthList, OutOfMemory, StartList};
use ts_plain::head_of;
use ts_rtree::Tree;
use ts_schema::{Attr, Frame, Schema};
use ts_wire::ReadFault;

/// The metadata of a fragment in tiles: what is known of it before any of its columns is read. See the
/// TileDB format specification, "Fragment Metadata".
#[derive(Debug, Drop, PartialEq, Eq)]
pub struct Meta {
    /// What is said of the fragment as a whole.
    pub head: Head,
    /// The length of the object of each column in bytes, its envelope counted. The objects of the
    /// coordinates come first, where they are stored, then for each attribute those of its values and
    /// their validity, then that of the origins.
    pub lengths: LengthList,
    /// For each object `aN_var.tdb` where each of its tiles starts, in bytes from the object's start.
    pub var_starts: StartList,
    /// The number of tiles.
    pub tiles: u32,
    /// The tree over the boxes of the tiles, which a fragment with stored coordinates has.
    pub tree: Option<Tree>,
}

impl Meta {
    /// The metadata that an object holds, under the name of its fragment, in an array of this frame, which
    /// may be any. The cells are in this schema.
    ///
    /// The layout is that of the file FORMATS.md, "The metadata of a fragment": of a dense array that of
    /// fragments in space tiles, and of a sparse one that of fragments whose coordinates are stored. The
    /// answer is metadata exactly where the object is one that spells metadata of this fragment. Else the
    /// offset in bytes, from the object's start, is that of the first field in the order of the layout that
    /// the object ends within or that breaks its rule. A body that goes on after its layout is broken at the
    /// first byte too many. No one looked yet into a tree that is read. An object holds one metadata at most
    /// (`only`), and metadata that was read can be written (`writable`).
    pub fn decode(
        alloc: Global,
        frame: &Frame,
        schema: &Schema,
        frag: FragKey,
        object: &[u8],
    ) -> Result<Meta, ReadFault>
        ensures exact { DecodesOr (λ meta. meta) (meta_by frame.now schema.now.attrs frag object.now) result }
        ensures found { IfOk result (λ meta. IsMetaObjectBy frame.now schema.now.attrs meta object.now × (meta.head.frag ≡ frag)) }
        ensures only { (meta : AnyMeta) → meta.head.frag ≡ frag → IsMetaObjectBy frame.now schema.now.attrs meta object.now → IsRead (λ found. found) meta result }
        ensures writable { IfOk result (IsWritableBy frame.now schema.now.attrs) }
        ensures cut { (body : List ℕ) → length body < 2 ^ 64 → IsCut 14 (wrapped kind.Meta body) object.now → IsDamagedAt 6 result }
    {
        let _dims = frame.domain.as_slice();
        read_meta(alloc, frame, schema.attrs.as_slice(), frag, object)
    }

    /// The object of the metadata, for an array of this frame, which may be any. The layout is the one that
    /// [`Meta::decode`] reads.
    ///
    /// Something has to be said of each object that the frame and the schema ask for. Where some object
    /// holds the metadata, this one does (`spelled`), and no other (`one`), and [`Meta::decode`] gives
    /// the metadata back (`undone`). Of other metadata the bytes may be no object.
    pub fn encode(
        &self,
        alloc: Global,
        frame: &Frame,
        schema: &Schema,
    ) -> Result<ByteList, OutOfMemory>
        requires writable { IsWritableBy frame.now schema.now.attrs self.now }
        ensures stored { IfOk result (λ object. object ≡ wrapped kind.Meta (footer_bytes (footer_by frame.now schema.now.attrs self.now))) }
        ensures spelled { HasMetaObjectBy frame.now schema.now.attrs self.now → IfOk result (IsMetaObjectBy frame.now schema.now.attrs self.now) }
        ensures one { (object : List ℕ) → IsMetaObjectBy frame.now schema.now.attrs self.now object → IfOk result (λ written. written ≡ object) }
        ensures undone { HasMetaObjectBy frame.now schema.now.attrs self.now → IfOk result (λ object. meta_by frame.now schema.now.attrs self.now.head.frag object ≡ Ok self.now) }
    {
        let _dims = frame.domain.as_slice();
        write_meta(alloc, frame, schema.attrs.as_slice(), self)
    }
}

/// The head of the fragment whose metadata an object holds, under the name of the fragment, in an array
/// of this frame. The frame may be any; the fragment is one whose coordinates are stored, as those of sparse
/// arrays. No schema is needed, and what stands behind the origins is not read.
///
/// Where the object holds metadata, whatever its schema is, the answer is its head. Where the answer is
/// an offset, the object is broken there first.
pub fn read_head(
    alloc: Global,
    frame: &Frame,
    frag: FragKey,
    object: &[u8],
) -> Result<Head, ReadFault>
    ensures exact { DecodesOr (λ head. head) (head_in frame.now frag object.now) result }
    ensures only { (attrs : List AnyAttr) (meta : AnyMeta) → meta.head.frag ≡ frag → IsMetaObject frame.now attrs meta object.now → IsRead (λ found. found) meta.head result }
    ensures broken { (attrs : List AnyAttr) → BreaksSo (meta_in frame.now attrs frag object.now) result }
{
    read_laid_head(alloc, Tiling::Sparse, frame, frag, object)
}

/// What [`read_head`] reads, of a fragment that lies in space tiles, as those of dense arrays. The frame may
/// be any.
pub fn read_dense_head(
    alloc: Global,
    frame: &Frame,
    frag: FragKey,
    object: &[u8],
) -> Result<Head, ReadFault>
    ensures exact { DecodesOr (λ head. head) (dense_head_in frame.now frag object.now) result }
    ensures only { (attrs : List AnyAttr) (meta : AnyMeta) → meta.head.frag ≡ frag → IsDenseMetaObject frame.now attrs meta object.now → IsRead (λ found. found) meta.head result }
    ensures broken { (attrs : List AnyAttr) → BreaksSo (dense_meta_in frame.now attrs frag object.now) result }
{
    read_laid_head(alloc, Tiling::Dense, frame, frag, object)
}

// The head of the fragment whose metadata an object holds, as its cells lie in tiles.
fn read_laid_head(
    alloc: Global,
    tiling: Tiling,
    frame: &Frame,
    frag: FragKey,
    object: &[u8],
) -> Result<Head, ReadFault>
    ensures exact { DecodesOr (λ head. head) (laid_head_in tiling frame.now frag object.now) result }
    ensures only { (attrs : List AnyAttr) (meta : AnyMeta) → meta.head.frag ≡ frag → IsLaidMetaObject tiling frame.now attrs meta object.now → IsRead (λ found. found) meta.head result }
    ensures broken { (attrs : List AnyAttr) → BreaksSo (laid_meta_in tiling frame.now attrs frag object.now) result }
{
    read_meta_head(alloc, tiling, frame, frag, object)
}

#[tactic(auto, unfolding(crate::specs::Metas::laid_head_in))]
fn read_meta_head(
    alloc: Global,
    tiling: Tiling,
    frame: &Frame,
    frag: FragKey,
    object: &[u8],
) -> Result<Head, ReadFault>
    ensures { DecodesOr (λ head. head) (laid_head_in tiling frame.now frag object.now) result }
{
    let stored = read_stored_head(alloc, tiling, frame, frag, object)?;
    Ok(head_of(frame, frag, stored))
}

#[tactic(auto, unfolding(crate::specs::Metas::laid_meta_in))]
fn read_meta(
    alloc: Global,
    frame: &Frame,
    attrs: &[Attr],
    frag: FragKey,
    object: &[u8],
) -> Result<Meta, ReadFault>
    ensures { DecodesOr (λ meta. meta) (meta_by frame.now attrs.now frag object.now) result }
{
    let stored = read_laid_footer(alloc, tiling_of(frame), frame, attrs, frag, object)?;
    let meta = meta_of(alloc, frame, frag, stored)?;
    Ok(meta)
}

// The metadata of the fragment of this name.
#[tactic(auto, unfolding(crate::specs::Metas::meta_of))]
fn meta_of(alloc: Global, frame: &Frame, frag: FragKey, stored: Footer) -> Result<Meta, OutOfMemory>
    requires { IsHull frame.now.domain stored.head.hull }
    ensures { IfOk result (λ meta. meta ≡ meta_of frag stored) }
{
    let Footer {
        head,
        tiles,
        sizes,
        tree,
    } = stored;
    let (lengths, var_starts) = split(alloc, sizes)?;
    Ok(Meta {
        head: head_of(frame, frag, head),
        lengths,
        var_starts,
        tiles,
        tree,
    })
}

// The lengths of objects, and the starts of those that have starts.
#[tactic(auto, using(crate::proofs::Writes::taken_apart))]
fn split(alloc: Global, sizes: SizeList) -> Result<(LengthList, StartList), OutOfMemory>
    ensures lengths { IfOk result (λ parts. parts.0 ≡ map (λ size. size.length) sizes) }
    ensures starts { IfOk result (λ parts. parts.1 ≡ starts_of sizes) }
{
    let mut lengths = LengthList::new(alloc);
    let mut var_starts = StartList::new(alloc);
    for size in sizes.into_vec() {
        let ColumnSize { length, starts } = size;
        lengths.push(length)?;
        push_some(&mut var_starts, starts)?;
    }
    Ok((lengths, var_starts))
}

// Appends starts, if there are some.
#[tactic(auto, using(crate::proofs::Writes::some_alone))]
fn push_some(lists: &mut StartList, starts: CountList) -> Result<(), OutOfMemory>
    ensures { OnOk result (lists.new ≡ lists.old ++ some_before starts []) }
{
    if starts.is_empty() {
        Ok(())
    } else {
        lists.push(starts)
    }
}
