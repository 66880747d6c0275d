//! Calls to a store as values, and what they are answered.
ghost use Rattle.std.specs.Prelude.{◌≡◌};
ghost use Rattle.ts_store.specs.Calls.{is_no_memory};

use crate::bytes::SharedBytes;
use std::alloc::Global;
use thiserror::Error;
use ts_base::{Duplicate, Name, NameList, OutOfMemory, Prefix};

/// A call to a store.
#[derive(Clone, Debug, Drop, PartialEq, Eq)]
pub enum Call {
    /// Puts an object with these bytes, unless its name is held.
    Put(Name, SharedBytes),
    /// Removes an object.
    Remove(Name),
    /// Lists the names under a prefix.
    List(Prefix),
    /// Gets bytes of an object: from a place on, at most so many.
    Get(Name, u64, u64),
    /// Asks for the length of an object.
    Size(Name),
}

/// What a call to a store is answered.
#[derive(Clone, Debug, Drop, PartialEq, Eq)]
pub enum Reply {
    /// No call was made yet.
    Start,
    /// A put: the name was not held, and the object is.
    Made,
    /// A put: the name was held, and nothing changed.
    Taken,
    /// A removal: the name is not held.
    Removed,
    /// A listing: the names, ascending.
    Names(NameList),
    /// A get: the bytes.
    Bytes(SharedBytes),
    /// A get or a size: the name is not held.
    Absent,
    /// A size: the length of the object in bytes.
    Length(u64),
    /// The store failed.
    Failed,
    /// There was no memory, and nothing changed.
    NoMemory,
}

/// Whether a put made an object.
#[derive(Clone, Copy, Debug, PartialEq, Eq)]
pub enum Made {
    /// The name was not held, and the object is.
    New,
    /// The name was held, and nothing changed.
    Taken,
}

/// Why a call to a store did not answer what was asked.
#[derive(Clone, Copy, Debug, PartialEq, Eq, Error)]
pub enum StoreError {
    /// The store failed. Its call `fate` tells what it did all the same.
    #[error("the store failed")]
    Failed,
    /// There was no memory, and nothing changed.
    #[error("out of memory")]
    OutOfMemory,
}

impl From<OutOfMemory> for StoreError {
    ghost use Rattle.std.specs.Prelude.{◌≡◌};
    ghost use Rattle.ts_store.specs.declared.call.StoreError.TheVariants as error;

    ghost from_gives = { λ _ e. e ≡ error.OutOfMemory };

    fn from(_error: OutOfMemory) -> StoreError {
        StoreError::OutOfMemory
    }
}

impl Reply {
    /// Whether there was no memory for the call, so that it did nothing and is not entered in a
    /// journal.
    pub fn is_no_memory(&self) -> bool
        ensures { result ≡ is_no_memory self.now }
    {
        matches!(self, Reply::NoMemory)
    }
}

impl Duplicate for Call {
    fn copy(&self, _alloc: Global) -> Result<Call, OutOfMemory> {
        Ok(self.clone()?)
    }
}

impl Duplicate for Reply {
    fn copy(&self, _alloc: Global) -> Result<Reply, OutOfMemory> {
        Ok(self.clone()?)
    }
}
