//! Merging the pieces of several fragments into one.
ghost use Rattle.std.specs.Prelude.{◌≡◌, true, false, List, ◌∷◌, All, IfOk, IsTrue, MatchResult};
ghost use Rattle.ts_base.specs.declared.heads.Piece.{Piece as AnyPiece};
ghost use Rattle.ts_base.specs.declared.heads.Version.{Version as AnyVersion};
ghost use Rattle.ts_domain.specs.Domains.{is_in_domain};
ghost use Rattle.ts_schema.specs.declared.attrs.Attr.{Attr as AnyAttr};
ghost use Rattle.ts_model.specs.Merging.{AreSources, EachAlike, HasBox, all_got, heads_of, merged_with};
ghost use Rattle.ts_model.specs.States.{can_be_named};
ghost use Rattle.ts_consolidate.specs.Consolidations.{IsConsolidationOf};
ghost use Rattle.ts_consolidate.specs.declared.merging.Unmerged.TheVariants as fault;

use crate::heads::{merged_head, origins_of_all};
use crate::versions::{joined, merged_spots};
use std::alloc::Global;
use ts_base::{Head, OutOfMemory};
use ts_batch::BatchesList;
use ts_piece::BatchPiece;
use ts_schema::Frame;

/// Why pieces were not merged into one.
#[derive(Clone, Copy, Debug, PartialEq, Eq)]
pub enum Unmerged {
    /// Together they have 2^32 origins or more, or so many versions that are kept, or in a dense array a
    /// hull of so many cells. A fragment can name and count fewer.
    TooMany,
    /// There was no memory for the piece. This comes too for more than 2^32 batches, and for 2^32
    /// versions or more in one.
    OutOfMemory,
}

impl From<OutOfMemory> for Unmerged {
    ghost from_gives = { λ _ made. made ≡ fault.OutOfMemory };

    fn from(_error: OutOfMemory) -> Unmerged {
        Unmerged::OutOfMemory
    }
}

/// Merges the pieces of several fragments, a first one and others, into one, whose fragment has this
/// identifier.
///
/// `got` has the versions of each source, in the order of the heads, as a fetch that wants all of
/// them finds them. The piece has them in global order, those of one cell by their keys. In a sparse
/// array all are kept, and of two with one key in one cell the first; in a dense array the newest of
/// each cell. No row is made of them. It takes time in proportion to the number of versions
/// and origins, times the number of binary digits of that.
pub fn merge_pieces(
    alloc: Global,
    frame: &Frame,
    id: u128,
    first: &Head,
    others: &[Head],
    got: BatchesList,
) -> Result<BatchPiece, Unmerged>
    requires own { HasBox frame.now first.now }
    requires boxes { All (HasBox frame.now) others.now }
    requires inside { All (All (λ (version : AnyVersion). IsTrue (is_in_domain frame.now.domain version.coords))) got }
    ensures merged { IfOk result (λ piece. piece ≡ merged_with frame.now id first.now others.now (all_got got)) }
    ensures sources { IfOk result (λ piece. (attrs : List AnyAttr) (p : AnyPiece) (ps : List AnyPiece) → AreSources frame.now attrs (p ∷ ps) → p.head ≡ first.now → heads_of ps ≡ others.now → EachAlike (p ∷ ps) got → IsConsolidationOf frame.now attrs id p ps piece) }
    ensures counts { MatchResult result (λ piece. can_be_named piece ≡ true) (λ cause. cause ≡ Unmerged.TooMany → can_be_named (merged_with frame.now id first.now others.now (all_got got)) ≡ false) }
{
    let origins = origins_of_all(alloc, first, others)?;
    if origins.len() > u64::from(u32::MAX) {
        return Err(Unmerged::TooMany);
    }
    let batches = joined(alloc, got)?;
    let spots = merged_spots(alloc, frame, first.dense, batches.as_slice())?;
    let count = spots.len() as u64;
    if count > u64::from(u32::MAX) {
        return Err(Unmerged::TooMany);
    }
    let head = merged_head(frame, id, first, others, origins, count);
    if head.cells > u64::from(u32::MAX) {
        return Err(Unmerged::TooMany);
    }
    Ok(BatchPiece::of(head, batches, spots))
}
