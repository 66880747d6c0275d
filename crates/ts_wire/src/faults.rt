//! What can be wrong with an object that is read.
ghost use Rattle.std.specs.Prelude.{◌≡◌};
ghost use Rattle.ts_wire.specs.Reading.{Keeps};
ghost use Rattle.ts_wire.specs.declared.faults.ReadFault.TheVariants as fault;

use std::alloc::AllocError;
use ts_base::OutOfMemory;

/// An object is damaged: a field is missing, cut, or breaks its rule.
#[derive(Clone, Copy, Debug, PartialEq, Eq)]
pub struct Damaged {
    /// The offset in bytes, from the object's start, of the first broken field in the order of the
    /// layout. A body that goes on after its layout is broken at the first byte too many.
    pub at: u64,
}

/// Why an object gave no value.
#[derive(Clone, Copy, Debug, PartialEq, Eq)]
pub enum ReadFault {
    /// The object is damaged.
    Damaged(Damaged),
    /// There was no memory for the value.
    OutOfMemory,
}

impl From<Damaged> for ReadFault {
    ghost from_gives = { λ damaged made. made ≡ fault.Damaged damaged };

    fn from(damaged: Damaged) -> ReadFault {
        ReadFault::Damaged(damaged)
    }
}

impl From<OutOfMemory> for ReadFault {
    ghost from_gives = { λ _ made. made ≡ fault.OutOfMemory };

    fn from(_error: OutOfMemory) -> ReadFault {
        ReadFault::OutOfMemory
    }
}

impl From<AllocError> for ReadFault {
    ghost from_gives = { λ _ made. made ≡ fault.OutOfMemory };

    fn from(_error: AllocError) -> ReadFault {
        ReadFault::OutOfMemory
    }
}

/// The value of a field that begins at this offset, where the field keeps its rule.
pub fn kept<T: Drop>(at: u64, value: T, keeps: bool) -> Result<T, Damaged>
    ensures { Keeps at value keeps result }
{
    if keeps {
        Ok(value)
    } else {
        Err(Damaged { at })
    }
}
