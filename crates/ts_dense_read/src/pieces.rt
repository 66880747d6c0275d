//! Pieces that are written as dense fragments in space tiles.
ghost use Rattle.std.specs.Prelude.{◌≡◌, false, All, IfOk};
ghost use Rattle.ts_base.specs.Names.{IsSpelledPart};
ghost use Rattle.ts_fetch.specs.Plans.{calls_left, gets_left};
ghost use Rattle.ts_dense.specs.Dense.{IsDense};
ghost use Rattle.ts_kinds.specs.Kinds.{either_spelled, either_off, either_codec, either_tracks, either_count, either_most};
ghost use Rattle.ts_kinds.specs.KindLaws.{either_laws, either_one, either_names, either_broken, either_settled, either_whole, either_judges, either_found, either_own, either_bounded, either_inside, either_ordered, either_stores, laws_on, IsOfKind};
ghost use Rattle.ts_dense_read.specs.SpaceCodecs.{space_codec, space_parts, space_gets, SpaceTracks, IsSpaceStorable, IsSpaceBroken};
ghost use Rattle.ts_dense_read.specs.SpaceLaws.{space_laws};
ghost use Rattle.ts_dense_read.specs.SpaceParts.{space_one};
ghost use Rattle.ts_dense_read.specs.SpaceHeads.{space_names, space_settles};
ghost use Rattle.ts_dense_read.specs.SpaceBroken.{space_broken, space_whole, space_judges};
ghost use Rattle.ts_dense_read.specs.SpaceGets.{space_own, space_inside, space_found, space_bounded};
ghost use Rattle.ts_dense_read.specs.InOrder.{space_ordered};
ghost use Rattle.ts_dense_read.specs.Restored.{space_stores};

use crate::boxed::BoxedFetch;
use crate::opened::Opened;
use crate::opening::open;
use std::alloc::Global;
use std::marker::PhantomData;
use std::thread::Threads;
use ts_actor::{Fetched, Pieces};
use ts_base::{FragKey, Head, OutOfMemory, Part, PartList, VersionList, VersionLists};
use ts_dense::build;
use ts_fetch::TileFetch;
use ts_footer::read_dense_head;
use ts_kinds::EitherFetch;
use ts_piece::BatchPiece;
use ts_plain::merge_all;
use ts_schema::{Frame, Schema, Spelling, Want};
use ts_store::{Reply, SharedBytes};
use ts_wire::ReadFault;

/// Dense fragments in space tiles, each column in an object of its own, and metadata that says where they
/// stand. Fragments of sparse arrays are written in the way `S`.
///
/// A fetch of a dense fragment reads the metadata and asks for the size of each object that it reads. Then
/// it gets the tiles that meet the box that is wanted. Coordinates are not stored, so a fetch that wants no
/// value of an ordinary fragment reads the metadata alone.
#[derive(Drop)]
pub struct DensePieces<S> {
    sparse: PhantomData<S>,
}

impl<S: Spelling> Spelling for DensePieces<S> {
    ghost spelled = { either_spelled IsDense S.spelled };

    ghost off = { either_off IsSpaceBroken S.off };
}

impl<S: Pieces> Pieces for DensePieces<S> {
    type Fetch = BoxedFetch<EitherFetch<TileFetch<Opened>, S::Fetch>>;

    ghost codec = { either_codec space_codec S.codec };

    ghost tracks = { either_tracks SpaceTracks S.tracks };

    ghost left = { either_count calls_left S.left };

    ghost gets = { either_count gets_left S.gets };

    ghost most_gets = { either_most space_gets S.most_gets };

    ghost laws = { either_laws space_codec S.codec IsDense S.spelled SpaceTracks S.tracks space_laws (laws_on (IsOfKind false) S.codec S.spelled S.tracks S.laws) };

    ghost one_piece = { either_one IsDense S.spelled space_one S.one_piece };

    ghost names = { either_names space_codec S.codec space_names S.names };

    ghost broken = { either_broken space_codec S.codec IsSpaceBroken S.off space_broken S.broken };

    ghost settled = { either_settled space_codec S.codec IsSpaceBroken S.off space_settles S.settled };

    ghost whole = { either_whole space_codec S.codec IsSpaceBroken S.off space_whole S.whole };

    ghost judges = { either_judges space_codec S.codec IsSpaceBroken S.off space_judges S.judges };

    ghost found = { either_found space_codec S.codec IsDense S.spelled space_found S.found };

    ghost own = { either_own space_codec S.codec space_own S.own };

    ghost bounded = { either_bounded space_codec S.codec IsDense S.spelled gets_left S.gets space_gets S.most_gets space_bounded S.bounded };

    ghost inside = { either_inside space_codec S.codec space_inside S.inside };

    ghost ordered = { either_ordered space_codec S.codec space_ordered S.ordered };

    ghost stores = { either_stores space_codec S.codec space_stores S.stores };

    fn parts(
        alloc: Global,
        frame: &Frame,
        schema: &Schema,
        piece: &BatchPiece,
    ) -> Result<PartList, OutOfMemory> {
        if frame.dense {
            parts_of(alloc, frame, schema, piece)
        } else {
            S::parts(alloc, frame, schema, piece)
        }
    }

    fn head_part(frame: &Frame) -> Part {
        if frame.dense {
            Part::Meta
        } else {
            S::head_part(frame)
        }
    }

    fn head(alloc: Global, frame: &Frame, frag: FragKey, object: &[u8]) -> Result<Head, ReadFault> {
        if frame.dense {
            read_dense_head(alloc, frame, frag, object)
        } else {
            S::head(alloc, frame, frag, object)
        }
    }

    fn fetch<R: Threads + Sync>(
        rt: &R,
        alloc: Global,
        frame: &Frame,
        schema: &Schema,
        frag: FragKey,
        object: &SharedBytes,
        want: &Want,
    ) -> Result<BoxedFetch<EitherFetch<TileFetch<Opened>, S::Fetch>>, ReadFault> {
        if frame.dense {
            let fetch = open(alloc, frame, schema, frag, object.as_slice(), want)?;
            Ok(BoxedFetch::new(alloc, EitherFetch::Dense(fetch))?)
        } else {
            let fetch = S::fetch(rt, alloc, frame, schema, frag, object, want)?;
            Ok(BoxedFetch::new(alloc, EitherFetch::Sparse(fetch))?)
        }
    }

    fn next<R: Threads + Sync>(
        rt: &R,
        alloc: Global,
        fetch: &mut BoxedFetch<EitherFetch<TileFetch<Opened>, S::Fetch>>,
        reply: Reply,
    ) -> Fetched {
        match &mut *fetch.inner {
            EitherFetch::Dense(fetch) => fetch.next(rt, alloc, reply),
            EitherFetch::Sparse(fetch) => S::next(rt, alloc, fetch, reply),
        }
    }

    fn merge(
        alloc: Global,
        frame: &Frame,
        lists: VersionLists,
    ) -> Result<VersionList, OutOfMemory> {
        if frame.dense {
            merge_all(alloc, frame, lists.as_slice())
        } else {
            S::merge(alloc, frame, lists)
        }
    }
}

// The parts of a piece of a dense array, that of the metadata last.
#[tactic(auto, using(crate::proofs::PieceParts::names_writes))]
fn parts_of(
    alloc: Global,
    frame: &Frame,
    schema: &Schema,
    piece: &BatchPiece,
) -> Result<PartList, OutOfMemory>
    requires { IsSpaceStorable frame.now schema.now.attrs piece.now }
    ensures is { IfOk result (λ parts. parts ≡ space_parts frame.now schema.now piece.now) }
    ensures spelled { IfOk result (All (λ x. IsSpelledPart x.part)) }
{
    build(alloc, frame, schema, piece)
}
