//! Why the cells of a tile were not read.
ghost use Rattle.std.specs.Prelude.{◌≡◌};
ghost use Rattle.ts_sparse_read.specs.declared.faults.CellFault.TheVariants as fault;

use ts_base::{OutOfMemory, Part};

/// Why the cells of a tile were not read.
#[derive(Clone, Copy, Debug, PartialEq, Eq)]
pub enum CellFault {
    /// This part breaks its layout first at this offset, in bytes from its start.
    Broken(Part, u64),
    /// There was no memory.
    OutOfMemory,
}

impl From<OutOfMemory> for CellFault {
    ghost from_gives = { λ _ made. made ≡ fault.OutOfMemory };

    fn from(_error: OutOfMemory) -> CellFault {
        CellFault::OutOfMemory
    }
}
