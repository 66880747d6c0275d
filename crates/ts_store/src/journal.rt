//! Journals: the calls that were made of a store, in order.

use crate::call::Call;
use crate::fate::Fate;
use std::alloc::Global;
use ts_base::{Duplicate, OutOfMemory, Sequence};

/// A call that was made of a store, and what it did.
#[derive(Clone, Debug, Drop, PartialEq, Eq)]
pub struct Entry {
    /// The lane that made it.
    pub lane: u32,
    /// The call.
    pub call: Call,
    /// What it did.
    pub fate: Fate,
}

/// The calls that were made of a store, in order. A call for which there was no memory did nothing
/// and has no entry.
pub type Journal = Sequence<Entry>;

impl Duplicate for Entry {
    fn copy(&self, _alloc: Global) -> Result<Entry, OutOfMemory> {
        Ok(self.clone()?)
    }
}
