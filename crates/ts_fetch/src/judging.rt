//! What is read of a fragment once all ranges are got.
ghost use Rattle.std.specs.Prelude.{◌≡◌, ℕ, List, IfOk};
ghost use Rattle.std.specs.Thread.{IsSync};
ghost use Rattle.ts_fetch.specs.declared.judging.Verdict.{Verdict as AnyVerdict};

use std::alloc::Global;
use std::thread::Threads;
use ts_base::{OutOfMemory, Part};
use ts_batch::Batches;
use ts_store::SharedBytes;

/// What the ranges of a fragment hold.
#[derive(Debug, Drop)]
pub enum Verdict {
    /// These are all versions that are wanted.
    Whole(Batches),
    /// This part breaks its layout first at this offset, in bytes from the start of its object.
    Broken(Part, u64),
}

/// What is known of a fragment from its metadata, and how its tiles are read.
///
/// There is one impl for each way to write fragments in tiles. It knows which ranges were planned, so
/// that it can tell a range that is too short.
pub trait Judge: Drop {
    /// What the ranges hold that were got, one list of bytes for each, in the order of the plan.
    ghost judge: { Self → List (List ℕ) → AnyVerdict };

    /// Reads the tiles in the ranges that were got, one list of bytes for each, in the order of the plan.
    fn judge<R: Threads + Sync>(
        &self,
        rt: &R,
        alloc: Global,
        got: &[SharedBytes],
    ) -> Result<Verdict, OutOfMemory>
        requires { IsSync R.row }
        ensures { IfOk result (λ verdict. verdict ≡ judge self.now got.now) };
}
