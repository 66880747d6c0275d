//! Beginning to fetch a fragment, from its metadata on.
ghost use Rattle.std.specs.Prelude.{◌≡◌, ◌≤◌, ◌<◌, ◌^◌, length, max, All, IfOk, IfSome};
ghost use Rattle.ts_base.specs.Names.{IsSpelledFrag};
ghost use Rattle.ts_wire.specs.Reading.{DecodesOr};
ghost use Rattle.ts_plain.specs.Insides.{IsHull};
ghost use Rattle.ts_footer.specs.Columns.{tiles_for};
ghost use Rattle.ts_footer.specs.Footers.{leaves_in, FitsFooter};
ghost use Rattle.ts_fetch.specs.Plans.{calls_left};
ghost use Rattle.ts_sparse_read.specs.Fits.{HasCells, FitsLeaf, tiles_over};
ghost use Rattle.ts_sparse_read.specs.Opens.{used_in, fetch_for, sparse_opens};

use crate::opened::{MOST_ATTRS, Opened, UsedColumn, WantedTiles};
use crate::planning::plan_of;
use crate::tiles::tiles_over;
use crate::used::used_in;
use std::alloc::Global;
use ts_base::{Duplicate, FragKey, OutOfMemory};
use ts_domain::SubBox;
use ts_fetch::TileFetch;
use ts_footer::{Footer, read_footer};
use ts_rtree::Tree;
use ts_schema::{AttrList, Frame, Schema, Want};
use ts_wire::ReadFault;

/// Begins to fetch what is wanted of a fragment, from the object of its metadata on. `Damaged` tells
/// the offset at which that is broken first.
///
/// The fetch asks for the size of each object that it reads. Then it gets, tile by tile, the bytes of
/// each tile whose box meets the box that is wanted.
#[tactic(auto, unfolding(crate::specs::Opens::sparse_opens))]
pub fn open(
    alloc: Global,
    frame: &Frame,
    schema: &Schema,
    frag: FragKey,
    object: &[u8],
    want: &Want,
) -> Result<TileFetch<Opened>, ReadFault>
    requires frag { IsSpelledFrag frag }
    ensures is { DecodesOr (λ fetch. fetch) (sparse_opens frame.now schema.now frag object.now want.now) result }
    ensures few_calls { IfOk result (λ fetch. calls_left fetch < 2 ^ 128) }
{
    let attrs = schema.attrs.as_slice();
    // No schema has more.
    if attrs.len() > MOST_ATTRS {
        return Err(ReadFault::OutOfMemory);
    }
    let footer = read_footer(alloc, frame, attrs, frag, object)?;
    let fetch = fetch_for(alloc, frame, &schema.attrs, frag, want, footer)?;
    Ok(fetch)
}

// A fetch of what is wanted of the fragment with this metadata.
#[tactic(auto, using(crate::proofs::OpenLaws::used_fit, crate::proofs::OpenLaws::tree_many))]
fn fetch_for(
    alloc: Global,
    frame: &Frame,
    attrs: &AttrList,
    frag: FragKey,
    want: &Want,
    footer: Footer,
) -> Result<TileFetch<Opened>, OutOfMemory>
    requires frag { IsSpelledFrag frag }
    requires few { length attrs.now ≤ 64 }
    requires fits { FitsFooter frame.now attrs.now frag footer }
    requires hull { IsHull frame.now.domain footer.head.hull }
    ensures few_calls { IfOk result (λ fetch. calls_left fetch < 2 ^ 128) }
    ensures is { IfOk result (λ fetch. fetch ≡ fetch_for frame.now attrs.now frag want.now footer (used_in frame.now attrs.now footer want.now.attrs)) }
{
    // A domain has 8 dimensions at most.
    let _count = frame.domain.count();
    let used = used_in(
        alloc,
        frame,
        attrs.as_slice(),
        &footer,
        want.attrs.as_slice(),
    )?;
    let Footer {
        head,
        tiles: count,
        sizes: _sizes,
        tree,
    } = footer;
    let tiles = tiles_of(
        alloc,
        frame,
        head.cells,
        count,
        tree,
        used.as_slice(),
        &want.sub,
    )?;
    let plan = plan_of(alloc, used.as_slice(), tiles.as_slice())?;
    let opened = Opened {
        frame: *frame,
        attrs: attrs.copy(alloc)?,
        want: copy_of(alloc, want)?,
        head,
        tiles,
    };
    Ok(TileFetch::new(alloc, opened, frag, plan))
}

// A copy of what is wanted.
fn copy_of(alloc: Global, want: &Want) -> Result<Want, OutOfMemory>
    ensures { IfOk result (λ twin. twin ≡ want.now) }
{
    Ok(Want {
        sub: want.sub,
        attrs: want.attrs.copy(alloc)?,
        a: want.a,
        b: want.b,
    })
}

// The tiles that are read, where there is a tree over so many tiles.
#[tactic(auto, using(crate::proofs::TileLaws::tiles_no_tree))]
fn tiles_of(
    alloc: Global,
    frame: &Frame,
    cells: u64,
    count: u32,
    tree: Option<Tree>,
    used: &[UsedColumn],
    sub: &SubBox,
) -> Result<WantedTiles, OutOfMemory>
    requires many { IfSome tree (λ tree. length tree.leaves ≡ count) }
    requires as_asked { count ≡ tiles_for frame.now.capacity cells }
    requires leaves { IfSome tree (λ tree. All (FitsLeaf frame.now.domain) tree.leaves) }
    requires fits { All (HasCells cells) used.now }
    ensures { IfOk result (λ tiles. tiles ≡ tiles_over frame.now.domain (max frame.now.capacity 1) cells (leaves_in tree) used.now sub.now) }
{
    match tree {
        Some(tree) => tiles_over(alloc, frame, cells, count, tree, used, sub),
        None => Ok(WantedTiles::new(alloc)),
    }
}
