//! Writing the metadata of fragments.
ghost use Rattle.std.specs.Prelude.{◌≡◌, false, ◌++◌, IfOk, OnOk};
ghost use Rattle.std.specs.List.{flat_map};
ghost use Rattle.ts_domain.specs.Rects.{rect_bytes};
ghost use Rattle.ts_wire.specs.declared.kinds.Kind.TheVariants as kind;
ghost use Rattle.ts_wire.specs.Envelope.{wrapped};
ghost use Rattle.ts_wire.specs.Numbers.{number_bytes};
ghost use Rattle.ts_rtree.specs.Trees.{nodes_of};
ghost use Rattle.ts_footer.specs.Columns.{sizes_of};
ghost use Rattle.ts_footer.specs.Footers.{leaves_in, footer_bytes};
ghost use Rattle.ts_footer.specs.Metas.{HasEach, sizes_for, footer_by, IsWritableBy};

use crate::columns::ColumnForm;
use crate::metas::Meta;
use crate::tilings::{forms_in, tiling_of};
use std::alloc::Global;
use ts_base::{ByteList, CountList, LengthList, OutOfMemory, StartList};
use ts_plain::write_head;
use ts_rtree::Tree;
use ts_schema::{Attr, Frame};
use ts_wire::{Kind, Scribe};

/// The object of the metadata.
#[tactic(auto, unfolding(crate::specs::Footers::layout_bytes))]
pub(crate) fn write_meta(
    alloc: Global,
    frame: &Frame,
    attrs: &[Attr],
    meta: &Meta,
) -> Result<ByteList, OutOfMemory>
    requires { IsWritableBy frame.now attrs.now meta.now }
    ensures { IfOk result (λ object. object ≡ wrapped kind.Meta (footer_bytes (footer_by frame.now attrs.now meta.now))) }
{
    let mut scribe = Scribe::new(alloc);
    write_head(&mut scribe, &meta.head)?;
    scribe.u32(meta.tiles)?;
    let tiling = tiling_of(frame);
    let forms = forms_in(alloc, tiling, frame, attrs, meta.head.consolidated)?;
    write_sizes(
        &mut scribe,
        forms.as_slice(),
        &meta.lengths,
        &meta.var_starts,
    )?;
    write_tree(alloc, &mut scribe, &meta.tree)?;
    scribe.into_object(Kind::Meta)
}

// For each object its length, and behind that of texts or blobs where its tiles start.
fn write_sizes(
    scribe: &mut Scribe,
    forms: &[ColumnForm],
    lengths: &LengthList,
    starts: &StartList,
) -> Result<(), OutOfMemory>
    requires { HasEach forms.now lengths.now starts.now }
    ensures { OnOk result (scribe.new ≡ scribe.old ++ flat_map (number_bytes 8) (sizes_of (sizes_for forms.now lengths.now starts.now))) }
{
    // No place in the list is 2^64 or more.
    let _count = starts.len();
    let mut next: u64 = 0;
    for place in 0..forms.len() {
        scribe.u64(*lengths.at(place as u64))?;
        match forms[place] {
            ColumnForm::Fixed(_) => {}
            ColumnForm::Var => {
                write_starts(scribe, starts.at(next))?;
                next += 1;
            }
        }
    }
    Ok(())
}

fn write_starts(scribe: &mut Scribe, starts: &CountList) -> Result<(), OutOfMemory>
    ensures { OnOk result (scribe.new ≡ scribe.old ++ flat_map (number_bytes 8) starts.now) }
{
    for start in starts.as_slice() {
        scribe.u64(*start)?;
    }
    Ok(())
}

// The boxes of a tree, where there is one.
fn write_tree(alloc: Global, scribe: &mut Scribe, tree: &Option<Tree>) -> Result<(), OutOfMemory>
    ensures { OnOk result (scribe.new ≡ scribe.old ++ flat_map rect_bytes (nodes_of (leaves_in tree.now))) }
{
    match tree {
        None => Ok(()),
        Some(tree) => {
            let bytes = tree.bytes(alloc)?;
            scribe.bytes(bytes.as_slice())
        }
    }
}
