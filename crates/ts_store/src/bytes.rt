//! Bytes that have several owners.
ghost use Rattle.std.specs.Prelude.{◌≡◌, [], length, nat_eq, IfOk};
ghost use Rattle.std.specs.Arc.{arc_slice_items};
ghost use Rattle.std.specs.Option.{option_map_or};
ghost use Rattle.std.specs.Cmp.{nat_eq_equiv, partial_equiv_from_equiv};
ghost use Rattle.std.specs.Cmp.Lexicographic.{pointwise, lists_per, lists_equiv};
ghost use Rattle.ts_store.specs.Calls.{part_of};

use std::alloc::{AllocError, Global};
use std::fmt;
use std::fmt::{Debug, Formatter, Write};
use std::marker::Model;
use std::sync::ArcSlice;
use ts_base::{ByteList, Duplicate, OutOfMemory};

/// The bytes of an object, or a part of them. A copy or a part takes no memory for them: it has them
/// together with what it was taken from. So an object is once in memory, whether a call puts it, a journal
/// has that call, a store in memory holds it, or a get is answered with a part of it.
///
/// Contracts see it as the list of its bytes.
pub struct SharedBytes {
    // The bytes that it has a part of: None where there are none.
    bytes: Option<ArcSlice<u8>>,
    // Where its part starts in them.
    from: usize,
    // The number of bytes of its part.
    count: usize,
}

impl Drop for SharedBytes {
    fn drop(self) {
        let SharedBytes {
            bytes: _,
            from: _,
            count: _,
        } = self;
    }
}

impl Model for SharedBytes {
    ghost use Rattle.std.specs.Prelude.{List, [], ℕ, ◌+◌, ◌≤◌, length, take, drop};
    ghost use Rattle.std.specs.Coded.{coded_list, coded_ℕ};
    ghost use Rattle.std.specs.Arc.{arc_slice_items};
    ghost use Rattle.std.specs.Option.{option_map_or};

    ghost Value = { List ℕ };

    ghost coded = { coded_list coded_ℕ };

    ghost view = { λ shared. take shared.count (drop shared.from (option_map_or arc_slice_items shared.bytes [])) };

    ghost invariant = { λ shared. shared.from + shared.count ≤ length (option_map_or arc_slice_items shared.bytes []) };
}

impl SharedBytes {
    /// No bytes. It takes no memory.
    pub fn new() -> SharedBytes
        ensures { result ≡ [] }
    {
        SharedBytes {
            bytes: None,
            from: 0,
            count: 0,
        }
    }

    /// The bytes of a list, which are not copied.
    #[tactic(auto, using(crate::proofs::Shares::all_of_it))]
    pub fn of_list(list: ByteList) -> Result<SharedBytes, OutOfMemory>
        ensures { IfOk result (λ shared. shared ≡ list) }
    {
        let bytes = ArcSlice::from_vec(list.into_vec())?;
        let count = bytes.as_slice().len();
        Ok(SharedBytes {
            bytes: Some(bytes),
            from: 0,
            count,
        })
    }

    /// These bytes, in new memory.
    pub fn of_bytes(alloc: Global, bytes: &[u8]) -> Result<SharedBytes, OutOfMemory>
        ensures { IfOk result (λ shared. shared ≡ bytes.now) }
    {
        SharedBytes::of_list(ByteList::of_bytes(alloc, bytes)?)
    }

    /// The bytes, to go over them.
    #[tactic(auto, using(crate::proofs::Shares::sliced))]
    pub fn as_slice(&self) -> &[u8]
        ensures { result.now ≡ self.now }
    {
        &all_of(&self.bytes)[self.from..self.from + self.count]
    }

    /// The bytes from a place on, at most `len` of them and none past the end. They are not copied.
    #[tactic(auto, using(crate::proofs::Shares::part_of_part))]
    pub fn part(&self, from: u64, len: u64) -> Result<SharedBytes, OutOfMemory>
        ensures { IfOk result (λ part. part ≡ part_of from len self.now) }
    {
        let start = from.min(self.count as u64) as usize;
        let count = len.min((self.count - start) as u64) as usize;
        let bytes = self.bytes.clone()?;
        Ok(SharedBytes {
            bytes,
            from: self.from + start,
            count,
        })
    }

    /// The number of bytes.
    pub fn len(&self) -> u64
        ensures { result ≡ length self.now }
    {
        self.count as u64
    }

    /// Whether there are none.
    pub fn is_empty(&self) -> bool
        ensures { result ≡ nat_eq (length self.now) 0 }
    {
        self.count == 0
    }
}

// The bytes that several owners have, or none.
fn all_of(bytes: &Option<ArcSlice<u8>>) -> &[u8]
    ensures { result.now ≡ option_map_or arc_slice_items bytes.now [] }
{
    match bytes {
        Some(bytes) => bytes.as_slice(),
        None => &[],
    }
}

impl Debug for SharedBytes {
    fn fmt<W: Write>(&self, f: &mut Formatter<W>) -> fmt::Result {
        f.debug_list().slice(self.as_slice()).finish()
    }
}

impl PartialEq for SharedBytes {
    ghost eq = { pointwise nat_eq };

    ghost laws = { lists_per (partial_equiv_from_equiv nat_eq_equiv) };

    fn eq(&self, other: &Self) -> bool {
        self.as_slice() == other.as_slice()
    }
}

impl Eq for SharedBytes {
    ghost laws = { lists_equiv nat_eq_equiv };
}

impl Clone for SharedBytes {
    ghost is_clone = { λ shared twin. twin ≡ shared };

    fn clone(&self) -> Result<SharedBytes, AllocError> {
        let bytes = self.bytes.clone()?;
        Ok(SharedBytes {
            bytes,
            from: self.from,
            count: self.count,
        })
    }
}

impl Duplicate for SharedBytes {
    fn copy(&self, _alloc: Global) -> Result<SharedBytes, OutOfMemory> {
        Ok(self.clone()?)
    }
}
