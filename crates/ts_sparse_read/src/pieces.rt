//! Pieces that are written as sparse fragments in tiles.
ghost use Rattle.ts_fetch.specs.Plans.{calls_left, gets_left};
ghost use Rattle.ts_sparse_read.specs.Codecs.{sparse_codec, sparse_gets, SparseTracks, IsSparseIn, IsSparseBroken};
ghost use Rattle.ts_sparse_read.specs.SparsePieceLaws.{sparse_codec_laws};
ghost use Rattle.ts_sparse_read.specs.SparseLaws.{sparse_one};
ghost use Rattle.ts_sparse_read.specs.SparseHeads.{sparse_names, sparse_settles};
ghost use Rattle.ts_sparse_read.specs.SparseBroken.{sparse_broken, sparse_whole, sparse_judges};
ghost use Rattle.ts_sparse_read.specs.SparseGets.{sparse_own, sparse_inside, sparse_found, sparse_bounded};
ghost use Rattle.ts_sparse_read.specs.InOrder.{sparse_ordered};
ghost use Rattle.ts_sparse_read.specs.Restored.{sparse_stores};

use crate::opened::Opened;
use crate::opening::open;
use std::alloc::Global;
use std::thread::Threads;
use ts_actor::{Fetched, Pieces};
use ts_base::{FragKey, Head, OutOfMemory, Part, PartList, VersionList, VersionLists};
use ts_fetch::TileFetch;
use ts_footer::read_head;
use ts_piece::BatchPiece;
use ts_plain::merge_all;
use ts_schema::{Frame, Schema, Spelling, Want};
use ts_sparse::build;
use ts_store::{Reply, SharedBytes};
use ts_wire::ReadFault;

/// Each column of a fragment in an object of its own, in tiles, and metadata that says where they stand.
///
/// A fetch reads the metadata and asks for the size of each object that it reads. Then it gets the tiles
/// whose boxes meet the box that is wanted.
#[derive(Drop)]
pub struct SparsePieces;

impl Spelling for SparsePieces {
    ghost spelled = { IsSparseIn };

    ghost off = { IsSparseBroken };
}

impl Pieces for SparsePieces {
    type Fetch = TileFetch<Opened>;

    ghost codec = { sparse_codec };

    ghost tracks = { SparseTracks };

    ghost left = { calls_left };

    ghost gets = { gets_left };

    ghost most_gets = { sparse_gets };

    ghost laws = { sparse_codec_laws };

    ghost one_piece = { sparse_one };

    ghost names = { sparse_names };

    ghost broken = { sparse_broken };

    ghost settled = { sparse_settles };

    ghost whole = { sparse_whole };

    ghost judges = { sparse_judges };

    ghost found = { sparse_found };

    ghost own = { sparse_own };

    ghost bounded = { sparse_bounded };

    ghost inside = { sparse_inside };

    ghost ordered = { sparse_ordered };

    ghost stores = { sparse_stores };

    fn parts(
        alloc: Global,
        frame: &Frame,
        schema: &Schema,
        piece: &BatchPiece,
    ) -> Result<PartList, OutOfMemory> {
        // A domain has 8 dimensions at most.
        let _count = frame.domain.count();
        build(alloc, frame, schema, piece)
    }

    fn head_part(_frame: &Frame) -> Part {
        Part::Meta
    }

    fn head(alloc: Global, frame: &Frame, frag: FragKey, object: &[u8]) -> Result<Head, ReadFault> {
        read_head(alloc, frame, frag, object)
    }

    fn fetch<R: Threads + Sync>(
        _rt: &R,
        alloc: Global,
        frame: &Frame,
        schema: &Schema,
        frag: FragKey,
        object: &SharedBytes,
        want: &Want,
    ) -> Result<TileFetch<Opened>, ReadFault> {
        open(alloc, frame, schema, frag, object.as_slice(), want)
    }

    fn next<R: Threads + Sync>(
        rt: &R,
        alloc: Global,
        fetch: &mut TileFetch<Opened>,
        reply: Reply,
    ) -> Fetched {
        fetch.next(rt, alloc, reply)
    }

    fn merge(
        alloc: Global,
        frame: &Frame,
        lists: VersionLists,
    ) -> Result<VersionList, OutOfMemory> {
        merge_all(alloc, frame, lists.as_slice())
    }
}
