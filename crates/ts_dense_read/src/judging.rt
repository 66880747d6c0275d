//! What the ranges of a dense fragment hold.
ghost use Rattle.std.specs.Prelude.{◌≡◌, ◌≤◌, length};
ghost use Rattle.ts_sparse_read.specs.Reads.{DecodesFault};
ghost use Rattle.ts_dense_read.specs.SpaceJudges.{space_judge};
ghost use Rattle.ts_dense_read.specs.SpaceTakes.{tiles_taken};

use crate::opened::Opened;
use crate::reading::take_tile;
use std::alloc::Global;
use std::thread::Threads;
use ts_base::OutOfMemory;
use ts_batch::Batches;
use ts_fetch::{Judge, Verdict};
use ts_sparse_read::{CellFault, MOST_ATTRS, decode_tiles, told};
use ts_store::SharedBytes;

impl Judge for Opened {
    ghost judge = { space_judge };

    fn judge<R: Threads + Sync>(
        &self,
        rt: &R,
        alloc: Global,
        got: &[SharedBytes],
    ) -> Result<Verdict, OutOfMemory> {
        match take_tiles(rt, alloc, self, got) {
            Ok(found) => Ok(Verdict::Whole(found)),
            Err(fault) => told(fault),
        }
    }
}

// What is wanted of the slots of all tiles, from the bytes that were got of their spans, one list for
// each span. Values of attributes are decoded before, those of all tiles at once.
#[tactic(auto, using(crate::proofs::TileTakes::walk_ends))]
fn take_tiles<R: Threads + Sync>(
    rt: &R,
    alloc: Global,
    opened: &Opened,
    got: &[SharedBytes],
) -> Result<Batches, CellFault>
    ensures { DecodesFault (λ found. found) (tiles_taken opened.now opened.now.tiles got.now) result }
{
    // No schema has more.
    let attrs = opened.attrs.as_slice();
    if attrs.len() > MOST_ATTRS {
        return Err(CellFault::OutOfMemory);
    }
    let places = opened.want.attrs.as_slice();
    let tiles = opened.tiles.as_slice();
    let mut decoded = decode_tiles(rt, alloc, places, attrs, tiles, got)?;
    let mut found = Batches::new(alloc);
    let mut next = 0;
    for tile in tiles {
        let vals = decoded.pop_front();
        if let Err(fault) = take_tile(alloc, opened, tile, &got[next..], vals, &mut found) {
            return Err(fault);
        }
        next += (got.len() - next).min(tile.spans.as_slice().len());
    }
    Ok(found)
}
