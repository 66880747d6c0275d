//! What the ranges of a sparse fragment hold.
ghost use Rattle.std.specs.Prelude.{◌≡◌, ◌≤◌, length, IfOk};
ghost use Rattle.ts_sparse_read.specs.Judges.{sparse_judge};
ghost use Rattle.ts_sparse_read.specs.Reads.{DecodesFault, IsToldAs};
ghost use Rattle.ts_sparse_read.specs.Sifts.{nothing_sifted, sift_tiles};

use crate::decoding::decode_tiles;
use crate::faults::CellFault;
use crate::opened::{MOST_ATTRS, Opened};
use crate::reading::sift_tile;
use crate::sifted::Sifted;
use std::alloc::Global;
use std::thread::Threads;
use ts_base::OutOfMemory;
use ts_batch::Batches;
use ts_fetch::{Judge, Verdict};
use ts_store::SharedBytes;

impl Judge for Opened {
    ghost judge = { sparse_judge };

    fn judge<R: Threads + Sync>(
        &self,
        rt: &R,
        alloc: Global,
        got: &[SharedBytes],
    ) -> Result<Verdict, OutOfMemory> {
        match sift_tiles(rt, alloc, self, got) {
            Ok(sifted) => Ok(Verdict::Whole(sifted.found)),
            Err(fault) => told(fault),
        }
    }
}

/// The verdict that tells what is broken.
pub fn told(fault: CellFault) -> Result<Verdict, OutOfMemory>
    ensures { IfOk result (IsToldAs fault) }
{
    match fault {
        CellFault::Broken(part, at) => Ok(Verdict::Broken(part, at)),
        CellFault::OutOfMemory => Err(OutOfMemory),
    }
}

// What is wanted of the cells of all tiles, from the bytes that were got of their spans, one list for
// each span. Values of attributes are decoded before, those of all tiles at once.
#[tactic(auto, using(crate::proofs::TileSifts::walk_ends))]
fn sift_tiles<R: Threads + Sync>(
    rt: &R,
    alloc: Global,
    opened: &Opened,
    got: &[SharedBytes],
) -> Result<Sifted, CellFault>
    ensures { DecodesFault (λ sifted. sifted) (sift_tiles opened.now nothing_sifted opened.now.tiles got.now) result }
{
    // No schema has more.
    let attrs = opened.attrs.as_slice();
    if attrs.len() > MOST_ATTRS {
        return Err(CellFault::OutOfMemory);
    }
    let places = opened.want.attrs.as_slice();
    let tiles = opened.tiles.as_slice();
    let mut decoded = decode_tiles(rt, alloc, places, attrs, tiles, got)?;
    let mut sifted = Sifted {
        found: Batches::new(alloc),
        last: None,
    };
    let mut next = 0;
    for tile in tiles {
        let vals = decoded.pop_front();
        if let Err(fault) = sift_tile(alloc, opened, tile, &got[next..], vals, &mut sifted) {
            return Err(fault);
        }
        next += (got.len() - next).min(tile.spans.as_slice().len());
    }
    Ok(sifted)
}
