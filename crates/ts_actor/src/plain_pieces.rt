//! Pieces that are written whole, in one object.
ghost use Rattle.ts_plain.specs.Pieces.{IsPlain};
ghost use Rattle.ts_actor.specs.PlainCodec.{plain_codec, IsPlainBroken, NeverWaits};
ghost use Rattle.ts_actor.specs.PlainLaws.{plain_laws, plain_one, plain_broken, plain_whole, plain_judges, plain_own, plain_bounded, plain_inside, plain_ordered, plain_found};
ghost use Rattle.ts_actor.specs.PlainHeads.{plain_names, plain_settles};
ghost use Rattle.ts_actor.specs.PlainStores.{plain_stores};

use crate::pieces::{Fetched, Pieces};
use std::alloc::Global;
use std::mem;
use std::thread::Threads;
use ts_base::{FragKey, Head, OutOfMemory, Part, PartBytes, PartList, VersionList, VersionLists};
use ts_batch::{Batch, Batches};
use ts_piece::BatchPiece;
use ts_plain::{merge_all, read_head, read_plain, write_plain};
use ts_schema::{Frame, Schema, Spelling, Want, taken};
use ts_store::{Reply, SharedBytes};
use ts_wire::ReadFault;

/// The whole fragment in the one part `plain.tdb`.
///
/// A fetch finds all that is wanted in the object that has the head, and asks for no call.
#[derive(Drop)]
pub struct PlainPieces;

impl Spelling for PlainPieces {
    ghost spelled = { IsPlain };

    ghost off = { IsPlainBroken };
}

impl Pieces for PlainPieces {
    type Fetch = Batches;

    ghost codec = { plain_codec };

    ghost tracks = { NeverWaits };

    ghost left = { λ _. 0 };

    ghost gets = { λ _. 0 };

    ghost most_gets = { λ _ _ _ _. 0 };

    ghost laws = { plain_laws };

    ghost one_piece = { plain_one };

    ghost names = { plain_names };

    ghost broken = { plain_broken };

    ghost settled = { plain_settles };

    ghost whole = { plain_whole };

    ghost judges = { plain_judges };

    ghost found = { plain_found };

    ghost own = { plain_own };

    ghost bounded = { plain_bounded };

    ghost inside = { plain_inside };

    ghost ordered = { plain_ordered };

    ghost stores = { plain_stores };

    fn parts(
        alloc: Global,
        _frame: &Frame,
        _schema: &Schema,
        piece: &BatchPiece,
    ) -> Result<PartList, OutOfMemory> {
        let rows = piece.cells(alloc)?.to_rows(alloc)?;
        let bytes = write_plain(alloc, &rows)?;
        let mut parts = PartList::new(alloc);
        parts.push(PartBytes {
            part: Part::Plain,
            bytes,
        })?;
        Ok(parts)
    }

    fn head_part(_frame: &Frame) -> Part {
        Part::Plain
    }

    fn head(alloc: Global, frame: &Frame, frag: FragKey, object: &[u8]) -> Result<Head, ReadFault> {
        read_head(alloc, frame, frag, object)
    }

    fn fetch<R: Threads + Sync>(
        _rt: &R,
        alloc: Global,
        frame: &Frame,
        schema: &Schema,
        frag: FragKey,
        object: &SharedBytes,
        want: &Want,
    ) -> Result<Batches, ReadFault> {
        let piece = read_plain(alloc, frame, schema, frag, object.as_slice())?;
        let versions = taken(alloc, want, piece.versions)?;
        Ok(Batches::of(alloc, Batch::of_rows(versions))?)
    }

    fn next<R: Threads + Sync>(
        _rt: &R,
        alloc: Global,
        fetch: &mut Batches,
        _reply: Reply,
    ) -> Fetched {
        Fetched::Got(mem::replace(fetch, Batches::new(alloc)))
    }

    fn merge(
        alloc: Global,
        frame: &Frame,
        lists: VersionLists,
    ) -> Result<VersionList, OutOfMemory> {
        merge_all(alloc, frame, lists.as_slice())
    }
}
