//! Beginning to fetch a fragment, from its metadata on.
ghost use Rattle.std.specs.Prelude.{◌≡◌, ◌≤◌, ◌<◌, ◌^◌, true, length, IfOk};
ghost use Rattle.ts_base.specs.Names.{IsSpelledFrag};
ghost use Rattle.ts_domain.specs.Boxes.{IsBox};
ghost use Rattle.ts_domain.specs.Domains.{LiesInDomain};
ghost use Rattle.ts_wire.specs.Reading.{DecodesOr};
ghost use Rattle.ts_plain.specs.Insides.{IsHull};
ghost use Rattle.ts_plain.specs.Writes.{box_of};
ghost use Rattle.ts_footer.specs.Footers.{FitsDenseFooter};
ghost use Rattle.ts_fetch.specs.Plans.{calls_left};
ghost use Rattle.ts_dense_read.specs.SpaceOpens.{space_used, space_fetch, space_opens};

use crate::opened::Opened;
use crate::tiles::tiles_met;
use crate::used::space_used;
use std::alloc::Global;
use ts_base::{Duplicate, FragKey, OutOfMemory};
use ts_domain::SubBox;
use ts_fetch::TileFetch;
use ts_footer::{Footer, read_dense_footer};
use ts_plain::{Side, highs, lows};
use ts_schema::{AttrList, Frame, Schema, Want};
use ts_sparse_read::{MOST_ATTRS, plan_of};
use ts_wire::ReadFault;

/// Begins to fetch what is wanted of a fragment of a dense array, from the object of its metadata on.
/// `Damaged` tells the offset at which that is broken first.
///
/// The fetch asks for the size of each object that it reads. Then it gets, tile by tile, the bytes of
/// each space tile that meets the box that is wanted. `OutOfMemory` comes too where the metadata claims a
/// box of more than 2^24 cells, which no command writes.
#[tactic(auto, unfolding(crate::specs::SpaceOpens::space_opens))]
pub fn open(
    alloc: Global,
    frame: &Frame,
    schema: &Schema,
    frag: FragKey,
    object: &[u8],
    want: &Want,
) -> Result<TileFetch<Opened>, ReadFault>
    requires frag { IsSpelledFrag frag }
    requires dense { frame.now.dense ≡ true }
    ensures is { DecodesOr (λ fetch. fetch) (space_opens frame.now schema.now frag object.now want.now) result }
    ensures few_calls { IfOk result (λ fetch. calls_left fetch < 2 ^ 128) }
{
    let attrs = schema.attrs.as_slice();
    // No schema has more.
    if attrs.len() > MOST_ATTRS {
        return Err(ReadFault::OutOfMemory);
    }
    let footer = read_dense_footer(alloc, frame, attrs, frag, object)?;
    let fetch = space_fetch(alloc, frame, &schema.attrs, frag, want, footer)?;
    Ok(fetch)
}

// A fetch of what is wanted of the fragment with this metadata.
fn space_fetch(
    alloc: Global,
    frame: &Frame,
    attrs: &AttrList,
    frag: FragKey,
    want: &Want,
    footer: Footer,
) -> Result<TileFetch<Opened>, OutOfMemory>
    requires frag { IsSpelledFrag frag }
    requires few { length attrs.now ≤ 64 }
    requires fits { FitsDenseFooter frame.now attrs.now frag footer }
    requires hull { IsHull frame.now.domain footer.head.hull }
    ensures few_calls { IfOk result (λ fetch. calls_left fetch < 2 ^ 128) }
    ensures is { IfOk result (λ fetch. fetch ≡ space_fetch frame.now attrs.now frag want.now footer (space_used attrs.now footer want.now.attrs)) }
{
    let used = space_used(alloc, attrs.as_slice(), &footer, want.attrs.as_slice())?;
    let hull = hull_box(frame, footer.head.hull.as_slice());
    let tiles = tiles_met(alloc, frame, &hull, used.as_slice(), &want.sub)?;
    let plan = plan_of(alloc, used.as_slice(), tiles.as_slice())?;
    let opened = Opened {
        frame: *frame,
        attrs: attrs.copy(alloc)?,
        want: copy_of(alloc, want)?,
        head: footer.head,
        tiles,
    };
    Ok(TileFetch::new(alloc, opened, frag, plan))
}

// The box between the sides of a hull.
#[tactic(auto, using(ts_plain::proofs::Insides::hull_length, ts_footer::proofs::FooterReads::box_valid, ts_footer::proofs::FooterReads::box_inside))]
fn hull_box(frame: &Frame, hull: &[Side]) -> SubBox
    requires { IsHull frame.now.domain hull.now }
    ensures corners { result ≡ box_of hull.now }
    ensures valid { IsBox result }
    ensures inside { LiesInDomain frame.now.domain result }
{
    // A domain has 1 to 8 dimensions.
    let _count = frame.domain.count();
    SubBox {
        low: lows(hull),
        high: highs(hull),
    }
}

// A copy of what is wanted.
fn copy_of(alloc: Global, want: &Want) -> Result<Want, OutOfMemory>
    ensures { IfOk result (λ twin. twin ≡ want.now) }
{
    Ok(Want {
        sub: want.sub,
        attrs: want.attrs.copy(alloc)?,
        a: want.a,
        b: want.b,
    })
}
